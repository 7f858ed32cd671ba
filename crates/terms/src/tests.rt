// Limits at their ends, and a refusal of each part.
use crate::limits::{SOIL, THICKNESS};
use crate::refusal::{Part, Refusal};
use crate::soil::{Soil, UnknownSoil};
use std::process::Abort;

fn is(rt: &impl Abort, refusal: Refusal, number: u64, part: Part, place: u64) {
    assert_eq!(rt; refusal.number(), number);
    assert_eq!(rt; refusal.part(), part);
    assert_eq!(rt; refusal.place(), place);
}

#[test]
fn both_ends_are_allowed(rt: HostRuntime) {
    assert!(rt; THICKNESS.excludes(99));
    assert!(rt; !THICKNESS.excludes(100));
    assert!(rt; !THICKNESS.excludes(65_000));
    assert!(rt; THICKNESS.excludes(65_001));
}

#[test]
fn nearest_inside(rt: HostRuntime) {
    assert_eq!(rt; THICKNESS.take_nearest(0), 100);
    assert_eq!(rt; THICKNESS.take_nearest(4_000), 4_000);
    assert_eq!(rt; THICKNESS.take_nearest(65_001), 65_000);
}

#[test]
fn admits_or_refuses(rt: HostRuntime) {
    let refusal = Refusal::LayerNumber { field: 2 };
    assert_eq!(rt; THICKNESS.admit(100, refusal), Ok(()));
    assert_eq!(rt; THICKNESS.admit(99, refusal), Err(refusal));
}

#[test]
fn soils_by_number(rt: HostRuntime) {
    let soils = [Soil::Clay, Soil::Sand, Soil::Chalk, Soil::Marl, Soil::Rock];
    for (number, soil) in (SOIL.least..).zip(soils) {
        assert_eq!(rt; Soil::try_from(number), Ok(soil));
    }
    assert_eq!(rt; Soil::try_from(0), Err(UnknownSoil(0)));
    assert_eq!(rt; Soil::try_from(6), Err(UnknownSoil(6)));
    assert_eq!(rt; Soil::nearest(0), Soil::Clay);
    assert_eq!(rt; Soil::nearest(9), Soil::Rock);
}

#[test]
fn refusals_of_the_sheet(rt: HostRuntime) {
    is(&rt, Refusal::UnknownLetter, 1, Part::Text, 0);
    is(&rt, Refusal::LongLine, 2, Part::Text, 0);
    is(&rt, Refusal::MalformedField { field: 4 }, 2, Part::Text, 4);
    is(&rt, Refusal::LayerNumber { field: 5 }, 21, Part::Ground, 5);
    is(&rt, Refusal::DeepGround { index: 7 }, 22, Part::Ground, 7);
    is(&rt, Refusal::NoLayerToAmend, 23, Part::Ground, 1);
    is(&rt, Refusal::OddDiameter, 31, Part::Pile, 3);
    is(&rt, Refusal::VibrodrivenCategory, 32, Part::Pile, 2);
}

#[test]
fn refusals_of_an_answer(rt: HostRuntime) {
    is(&rt, Refusal::NoPile, 41, Part::Answer, 0);
    is(
        &rt,
        Refusal::ShallowGround { depth: 2_500 },
        42,
        Part::Answer,
        2_500,
    );
    is(&rt, Refusal::NoFriction { index: 3 }, 44, Part::Answer, 3);
    is(
        &rt,
        Refusal::QuestionNumber { field: 2 },
        46,
        Part::Answer,
        2,
    );
    is(&rt, Refusal::TipLength, 52, Part::Law, 2);
}
