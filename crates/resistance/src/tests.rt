// Judgements of a pile of 1 m, each reckoned by hand, and the order of refusals.
use crate::fetching::fetch;
use crate::judging::{check_load, check_question, judge};
use crate::margin::margin;
use calls::{Judgement, Question};
use friction::cone::ConePressuremeter;
use friction::pressuremeter::Pressuremeter;
use ground::layer::Layer;
use ground::table::Ground;
use pile::driven::Pile;
use pile::numbers::PileNumbers;
use std::test::Fail;
use terms::refusal::Refusal;

// Category 5 has a friction in clay only.
fn pile_of(category: u64, mark: u64) -> Result<Pile, Refusal> {
    Pile::new(PileNumbers {
        category,
        mark,
        diameter: 480,
        perimeter: 1_500,
        tip_area: 180_000,
        section: 90_000,
        modulus: 20_000,
        length: 1_000,
        tip_factor: 110,
        step: 1_000,
    })
}

fn layer(soil: u64, thickness: u64, pressure: u64) -> Layer {
    Layer {
        soil,
        thickness,
        pressure,
        modulus: 10_000,
        ceiling: 50,
    }
}

fn asked(load: u64, model_factor: u64, resistance_factor: u64) -> Question {
    Question {
        load,
        model_factor,
        resistance_factor,
    }
}

#[test]
fn divides_by_both_factors(rt: HostRuntime) -> Result<(), Fail> {
    let mut ground = Ground::new(rt.alloc())?;
    ground.lay(layer(2, 10_000, 2_000))?;
    let pile = pile_of(1, 0)?;
    assert_eq!(rt;
        judge(&Pressuremeter, &ground, &pile, &asked(300, 1_150, 1_100)),
        Ok(Judgement {
            resistance: 471_000_000_000,
            capacity: 372_332_015_810,
            carries: true,
        })
    );
    Ok(())
}

// A load equal to the capacity is carried.
#[test]
fn carries_up_to_its_capacity(rt: HostRuntime) -> Result<(), Fail> {
    let mut ground = Ground::new(rt.alloc())?;
    ground.lay(layer(2, 10_000, 2_000))?;
    let pile = pile_of(1, 0)?;
    let full = judge(&Pressuremeter, &ground, &pile, &asked(471, 1_000, 1_000))?;
    assert_eq!(rt; full.capacity, 471_000_000_000);
    assert!(rt; full.carries);
    let over = judge(&Pressuremeter, &ground, &pile, &asked(472, 1_000, 1_000))?;
    assert!(rt; !over.carries);
    Ok(())
}

// The rule says 50,919 Pa: 7/10 of the ceiling is 35,000 Pa, and 7/10 of the answer would be under the ceiling.
#[test]
fn takes_seven_tenths_of_the_ceiling(rt: HostRuntime) -> Result<(), Fail> {
    let mut ground = Ground::new(rt.alloc())?;
    ground.lay(layer(2, 10_000, 2_000))?;
    let pile = pile_of(13, 1)?;
    let judgement = judge(&Pressuremeter, &ground, &pile, &asked(300, 1_000, 1_000))?;
    assert_eq!(rt; judgement.resistance, 448_500_000_000);
    Ok(())
}

#[test]
fn takes_the_limits_of_a_question(rt: HostRuntime) {
    assert_eq!(rt; check_question(&asked(1, 1_000, 2_000)), Ok(()));
    assert_eq!(rt;
        check_question(&asked(1_000_001, 1_000, 2_000)),
        Err(Refusal::QuestionNumber { field: 1 })
    );
    assert_eq!(rt; check_load(1_000_000), Ok(()));
    assert_eq!(rt; check_load(0), Err(Refusal::QuestionNumber { field: 1 }));
}

#[test]
fn refuses_in_order(rt: HostRuntime) -> Result<(), Fail> {
    let mut ground = Ground::new(rt.alloc())?;
    ground.lay(layer(2, 2_499, 2_000))?;
    let pile = pile_of(5, 0)?;
    assert_eq!(rt;
        judge(&Pressuremeter, &ground, &pile, &asked(0, 999, 999)),
        Err(Refusal::QuestionNumber { field: 1 })
    );
    assert_eq!(rt;
        judge(&Pressuremeter, &ground, &pile, &asked(1, 2_001, 999)),
        Err(Refusal::QuestionNumber { field: 2 })
    );
    assert_eq!(rt;
        judge(&Pressuremeter, &ground, &pile, &asked(1, 2_000, 999)),
        Err(Refusal::QuestionNumber { field: 3 })
    );
    assert_eq!(rt;
        judge(&Pressuremeter, &ground, &pile, &asked(1, 2_000, 2_000)),
        Err(Refusal::ShallowGround { depth: 2_500 })
    );
    ground.lay(layer(1, 100, 2_000))?;
    assert_eq!(rt;
        judge(&Pressuremeter, &ground, &pile, &asked(1, 2_000, 2_000)),
        Err(Refusal::NoFriction { index: 0 })
    );
    Ok(())
}

#[test]
fn refuses_the_first_silent_layer(rt: HostRuntime) -> Result<(), Fail> {
    let mut ground = Ground::new(rt.alloc())?;
    ground.lay(layer(1, 999, 2_000))?;
    ground.lay(layer(2, 2_000, 2_000))?;
    let pile = pile_of(5, 0)?;
    assert_eq!(rt;
        judge(&Pressuremeter, &ground, &pile, &asked(1, 1_000, 1_000)),
        Err(Refusal::NoFriction { index: 1 })
    );
    Ok(())
}

// A layer whose top is at the tip has no part in the shaft.
#[test]
fn asks_of_no_layer_below_the_tip(rt: HostRuntime) -> Result<(), Fail> {
    let mut ground = Ground::new(rt.alloc())?;
    ground.lay(layer(1, 1_000, 2_000))?;
    ground.lay(layer(2, 2_000, 2_000))?;
    let pile = pile_of(5, 0)?;
    let frictions = fetch(&Pressuremeter, &ground, &pile)?;
    assert_eq!(rt; frictions.values(), [50_000].as_slice());
    let judgement = judge(&Pressuremeter, &ground, &pile, &asked(1, 1_000, 1_000))?;
    assert_eq!(rt; judgement.resistance, 471_000_000_000);
    Ok(())
}

#[test]
fn judges_by_the_cone(rt: HostRuntime) -> Result<(), Fail> {
    let mut ground = Ground::new(rt.alloc())?;
    ground.lay(Layer {
        ceiling: 70,
        ..layer(1, 1_000, 750)
    })?;
    ground.lay(layer(2, 2_000, 2_000))?;
    let pile = pile_of(1, 0)?;
    assert_eq!(rt;
        judge(
            &ConePressuremeter,
            &ground,
            &pile,
            &asked(487, 1_000, 1_000),
        ),
        Ok(Judgement {
            resistance: 486_000_000_000,
            capacity: 486_000_000_000,
            carries: false,
        })
    );
    Ok(())
}

#[test]
fn margin_by_each_rule(rt: HostRuntime) -> Result<(), Fail> {
    let pile = pile_of(1, 0)?;
    assert_eq!(rt; margin::<Pressuremeter>(&pile), 16_680_000);
    assert_eq!(rt; margin::<ConePressuremeter>(&pile), 3_180_000);
    Ok(())
}
