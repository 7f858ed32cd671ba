// Both marches over one slice, each reckoned by hand.
use crate::{Bedded, Side};
use column::Node;
use ground::layer::Layer;
use ground::table::Ground;
use pile::driven::Pile;
use pile::frictions::Frictions;
use pile::numbers::PileNumbers;
use shaft::held::Shaft;
use std::test::Fail;
use transfer::frank_zhao::FrankZhao;

// At rest nothing is met by the lower march, and one Pa more by the upper: at the tip, and where the slice may have moved by 20,834 nm.
#[test]
fn starts_at_rest(rt: HostRuntime) -> Result<(), Fail> {
    let mut ground = Ground::new(rt.alloc())?;
    ground.lay(Layer::from([2, 10_000, 2_000, 10_000, 50]))?;
    let mut frictions = Frictions::new();
    frictions.push(50_000)?;
    let pile = Pile::new(PileNumbers::from([
        1, 0, 480, 1_500, 180_000, 180_000, 20_000, 1_000, 110, 1_000,
    ]))?;
    let shaft = Shaft::new(&ground, &pile, &frictions)?;
    let bedded = Bedded {
        law: &FrankZhao,
        shaft: &shaft,
    };
    let rest = Node {
        displacement: 0,
        force: 0,
    };
    assert_eq!(rt; bedded.march(Side::Lower, 0), rest);
    let above = Node {
        displacement: 146,
        force: 522_180_000,
    };
    assert_eq!(rt; bedded.march(Side::Upper, 0), above);
    assert_eq!(rt;
        bedded.march(Side::Upper, u64::MAX),
        bedded.march(Side::Upper, 48_000_000)
    );
    Ok(())
}
