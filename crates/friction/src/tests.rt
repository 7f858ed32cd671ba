// Answers of both rules at their edges. The pressuremeter's were reckoned apart, with exact fractions rounded down.
use crate::cone::ConePressuremeter;
use crate::pressuremeter::Pressuremeter;
use crate::rule::{Asking, FrictionRule};
use std::process::Abort;

fn at(soil: u64, category: u64, pressure: u64, friction: Option<u64>) -> (Asking, Option<u64>) {
    let asking = Asking {
        soil,
        category,
        pressure,
    };
    (asking, friction)
}

fn check_cases<R: FrictionRule>(rt: &impl Abort, rule: &R, cases: &[(Asking, Option<u64>)]) {
    for (asking, friction) in cases {
        assert_eq!(rt; rule.ask(*asking), *friction);
    }
}

#[test]
fn beyond_each_limit(rt: HostRuntime) {
    let is_beyond = |soil, category, pressure| at(soil, category, pressure, None).0.is_beyond();
    assert!(rt; !is_beyond(1, 20, 10_000));
    assert!(rt; !is_beyond(5, 1, 0));
    assert!(rt; is_beyond(6, 1, 0));
    assert!(rt; is_beyond(5, 0, 0));
    assert!(rt; is_beyond(5, 1, 10_001));
}

#[test]
fn cone_pressuremeter(rt: HostRuntime) {
    let cases = [
        at(1, 1, 0, Some(0)),
        at(1, 1, 1, Some(106)),
        at(1, 1, 750, Some(60_000)),
        at(1, 1, 1_499, Some(79_999)),
        at(1, 1, 1_500, Some(80_000)),
        at(1, 1, 1_501, Some(80_000)),
        at(1, 20, 10_000, Some(80_000)),
        at(0, 1, 750, None),
        at(2, 1, 750, None),
        at(1, 0, 750, None),
        at(1, 21, 750, None),
        at(1, 1, 10_001, None),
    ];
    check_cases(&rt, &ConePressuremeter, &cases);
}

#[test]
fn pressuremeter(rt: HostRuntime) {
    let cases = [
        at(2, 1, 0, Some(0)),
        at(3, 6, 1, Some(190)),
        at(2, 1, 2_000, Some(72_742)),
        at(5, 6, 3_000, Some(175_978)),
        at(4, 12, 5_000, Some(107_999)),
        at(1, 20, 10_000, Some(237_999)),
        at(2, 20, 10_000, Some(607_996)),
        at(2, 5, 2_000, None),
        at(1, 17, 2_000, None),
        at(0, 1, 2_000, None),
        at(6, 1, 2_000, None),
        at(1, 0, 2_000, None),
        at(1, 21, 2_000, None),
        at(1, 1, 10_001, None),
    ];
    check_cases(&rt, &Pressuremeter, &cases);
}

// The answers at 2,000 kPa, each times its category; a dash counts 0.
fn weighed(soil: u64) -> u64 {
    (1..=20u64)
        .map(|category| {
            let (asking, _) = at(soil, category, 2_000, None);
            let friction = Pressuremeter.ask(asking).unwrap_or(0);
            category.wrapping_mul(friction)
        })
        .fold(0, u64::wrapping_add)
}

#[test]
fn every_alpha(rt: HostRuntime) {
    assert_eq!(rt; weighed(1), 13_888_427);
    assert_eq!(rt; weighed(2), 22_942_923);
    assert_eq!(rt; weighed(3), 20_544_395);
    assert_eq!(rt; weighed(4), 26_391_938);
    assert_eq!(rt; weighed(5), 20_229_689);
}
