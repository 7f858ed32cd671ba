// What each call leaves of a study, as seen by the next judging.
use crate::holder::Study;
use calls::{Judgement, Question};
use friction::pressuremeter::Pressuremeter;
use ground::layer::{Amendment, Layer};
use pile::numbers::PileNumbers;
use std::test::Fail;
use terms::refusal::Refusal;
use transfer::frank_zhao::FrankZhao;

const SAND: Layer = Layer {
    soil: 2,
    thickness: 10_000,
    pressure: 2_000,
    modulus: 10_000,
    ceiling: 50,
};

const PLAIN: Question = Question {
    load: 471,
    model_factor: 1_000,
    resistance_factor: 1_000,
};

fn bored(length: u64) -> PileNumbers {
    PileNumbers {
        category: 1,
        mark: 0,
        diameter: 480,
        perimeter: 1_500,
        tip_area: 180_000,
        section: 180_000,
        modulus: 20_000,
        length,
        tip_factor: 110,
        step: 1_000,
    }
}

fn judged(kilonewtons: u64) -> Judgement {
    let resistance = kilonewtons.wrapping_mul(1_000_000_000);
    Judgement {
        resistance,
        capacity: resistance,
        carries: kilonewtons >= PLAIN.load,
    }
}

#[test]
fn refusals_change_nothing(rt: HostRuntime) -> Result<(), Fail> {
    let mut study = Study::new(rt.alloc(), Pressuremeter, FrankZhao)?;
    assert_eq!(rt; study.lift(), Err(Refusal::NoLayerToLift));
    study.lay(SAND)?;
    study.drive(bored(1_000))?;
    assert_eq!(rt;
        study.lay(Layer { soil: 6, ..SAND }),
        Err(Refusal::LayerNumber { field: 1 })
    );
    assert_eq!(rt;
        study.amend(Amendment::from([1, 100, 100])),
        Err(Refusal::NoLayerToAmend)
    );
    assert_eq!(rt;
        study.amend(Amendment::from([0, 100, 99])),
        Err(Refusal::LayerNumber { field: 3 })
    );
    assert_eq!(rt;
        study.drive(bored(499)),
        Err(Refusal::PileNumber { field: 8 })
    );
    assert_eq!(rt; study.judge(&PLAIN), Ok(judged(471)));
    Ok(())
}

#[test]
fn drives_another_pile(rt: HostRuntime) -> Result<(), Fail> {
    let mut study = Study::new(rt.alloc(), Pressuremeter, FrankZhao)?;
    study.lay(SAND)?;
    study.drive(bored(1_000))?;
    study.drive(bored(2_000))?;
    assert_eq!(rt; study.judge(&PLAIN), Ok(judged(546)));
    Ok(())
}

#[test]
fn judges_what_was_amended(rt: HostRuntime) -> Result<(), Fail> {
    let mut study = Study::new(rt.alloc(), Pressuremeter, FrankZhao)?;
    study.lay(SAND)?;
    study.drive(bored(1_000))?;
    study.amend(Amendment::from([0, 1_500, 10_000]))?;
    assert_eq!(rt; study.judge(&PLAIN), Ok(judged(372)));
    Ok(())
}

#[test]
fn misses_what_was_lifted(rt: HostRuntime) -> Result<(), Fail> {
    let mut study = Study::new(rt.alloc(), Pressuremeter, FrankZhao)?;
    study.lay(SAND)?;
    study.drive(bored(1_000))?;
    study.lift()?;
    assert_eq!(rt;
        study.judge(&PLAIN),
        Err(Refusal::ShallowGround { depth: 2_500 })
    );
    Ok(())
}

#[test]
fn looks_at_the_question_before_the_pile(rt: HostRuntime) -> Result<(), Fail> {
    let study = Study::new(rt.alloc(), Pressuremeter, FrankZhao)?;
    assert_eq!(rt;
        study.judge(&Question { load: 0, ..PLAIN }),
        Err(Refusal::QuestionNumber { field: 1 })
    );
    assert_eq!(rt; study.judge(&PLAIN), Err(Refusal::NoPile));
    Ok(())
}
