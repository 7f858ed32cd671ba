// A reviewer's story, and lists of unequal length.
use crate::tell;
use calls::{Answer, Call, Judgement, Question};
use friction::pressuremeter::Pressuremeter;
use ground::layer::{Amendment, Layer};
use pile::numbers::PileNumbers;
use std::test::Fail;
use study::holder::Study;
use terms::refusal::Refusal;
use transfer::frank_zhao::FrankZhao;

const BORED: PileNumbers = PileNumbers {
    category: 1,
    mark: 0,
    diameter: 480,
    perimeter: 1_500,
    tip_area: 180_000,
    section: 180_000,
    modulus: 20_000,
    length: 1_000,
    tip_factor: 110,
    step: 1_000,
};

const QUESTION: Question = Question {
    load: 300,
    model_factor: 1_150,
    resistance_factor: 1_100,
};

const AMEND: Call = Call::Amend(Amendment {
    index: 0,
    pressure: 2_000,
    modulus: 9_000,
});

fn lay(thickness: u64, pressure: u64) -> Call {
    Call::Lay(Layer {
        soil: 2,
        thickness,
        pressure,
        modulus: 10_000,
        ceiling: 50,
    })
}

// The layer that is lifted leaves nothing, and the denied judging changes nothing.
#[test]
fn ends_as_the_surviving_calls_do(rt: HostRuntime) -> Result<(), Fail> {
    let calls = [
        lay(2_000, 1_500),
        lay(8_000, 1_000),
        Call::Drive(BORED),
        Call::Judge(QUESTION),
        AMEND,
        Call::Judge(QUESTION),
        Call::Lift,
        Call::Judge(QUESTION),
        lay(4_000, 2_000),
        Call::Judge(QUESTION),
    ];
    let mut answers = [Answer::Done; 10];
    let mut study = Study::new(rt.alloc(), Pressuremeter, FrankZhao)?;
    assert_eq!(rt; tell(&mut study, &calls, &mut answers), 10);
    assert_eq!(rt;
        answers[7],
        Answer::Refused(Refusal::ShallowGround { depth: 2_500 })
    );
    assert_eq!(rt;
        answers[9],
        Answer::Judged(Judgement {
            resistance: 471_000_000_000,
            capacity: 372_332_015_810,
            carries: true,
        })
    );
    let surviving = [
        lay(2_000, 1_500),
        Call::Drive(BORED),
        AMEND,
        lay(4_000, 2_000),
        Call::Judge(QUESTION),
    ];
    let mut again = [Answer::Done; 5];
    let mut fresh = Study::new(rt.alloc(), Pressuremeter, FrankZhao)?;
    assert_eq!(rt; tell(&mut fresh, &surviving, &mut again), 5);
    assert_eq!(rt; again[4], answers[9]);
    Ok(())
}

#[test]
fn tells_no_call_without_a_place(rt: HostRuntime) -> Result<(), Fail> {
    let calls = [lay(8_000, 2_000), Call::Drive(BORED)];
    let mut answers = [Answer::Done; 1];
    let mut study = Study::new(rt.alloc(), Pressuremeter, FrankZhao)?;
    assert_eq!(rt; tell(&mut study, &calls, &mut answers), 1);
    let asked = [Call::Judge(QUESTION)];
    assert_eq!(rt; tell(&mut study, &asked, &mut answers), 1);
    assert_eq!(rt; answers[0], Answer::Refused(Refusal::NoPile));
    Ok(())
}

#[test]
fn leaves_the_later_places(rt: HostRuntime) -> Result<(), Fail> {
    let mut answers = [Answer::Refused(Refusal::NoPile); 3];
    let mut study = Study::new(rt.alloc(), Pressuremeter, FrankZhao)?;
    assert_eq!(rt; tell(&mut study, &[lay(8_000, 2_000)], &mut answers), 1);
    let rest = Answer::Refused(Refusal::NoPile);
    assert_eq!(rt; &answers, &[Answer::Done, rest, rest]);
    Ok(())
}
