// Shafts on small cases, and the greatest strain.
use crate::held::Shaft;
use column::{Part, PileBody};
use ground::layer::Layer;
use ground::table::Ground;
use pile::driven::Pile;
use pile::footing::Footing;
use pile::frictions::Frictions;
use pile::numbers::PileNumbers;
use std::test::Fail;
use terms::refusal::Refusal;

const BORED: PileNumbers = PileNumbers {
    category: 1,
    mark: 0,
    diameter: 480,
    perimeter: 1_500,
    tip_area: 180_000,
    section: 180_000,
    modulus: 20_000,
    length: 1_000,
    tip_factor: 110,
    step: 1_000,
};

fn layer(soil: u64, thickness: u64, modulus: u64) -> Layer {
    Layer {
        soil,
        thickness,
        pressure: 2_000,
        modulus,
        ceiling: 50,
    }
}

#[test]
fn stands_in_one_layer(rt: HostRuntime) -> Result<(), Fail> {
    let mut ground = Ground::new(rt.alloc())?;
    ground.lay(layer(2, 10_000, 10_000))?;
    let mut frictions = Frictions::new();
    frictions.push(50_000)?;
    let shaft = Shaft::new(&ground, &Pile::new(BORED)?, &frictions)?;
    let body = PileBody {
        tip_area: 180_000,
        perimeter: 1_500,
        stiffness: 3_600_000_000,
        diameter: 480,
        tip_soil: 2,
        tip_modulus: 10_000,
        tip_resistance: 2_200_000,
    };
    assert_eq!(rt; *shaft.body(), body);
    assert_eq!(rt; shaft.step(), 1_000);
    assert_eq!(rt; shaft.tip_range(), 48_000_000);
    let part = Part {
        height: 1_000,
        soil: 2,
        modulus: 10_000,
        friction: 50_000,
    };
    assert_eq!(rt; shaft.parts(), [part].as_slice());
    let again = shaft.clone()?;
    assert_eq!(rt; *again.body(), body);
    assert_eq!(rt; again.step(), 1_000);
    assert_eq!(rt; again.parts(), shaft.parts());
    let copy = shaft;
    assert_eq!(rt; copy.parts(), shaft.parts());
    Ok(())
}

// The layer under the edge bears, and has no part.
#[test]
fn goes_up_from_the_tip(rt: HostRuntime) -> Result<(), Fail> {
    let mut ground = Ground::new(rt.alloc())?;
    ground.lay(layer(1, 400, 5_000))?;
    ground.lay(layer(2, 600, 10_000))?;
    ground.lay(layer(4, 10_000, 20_000))?;
    let mut frictions = Frictions::new();
    frictions.push(20_000)?;
    frictions.push(30_000)?;
    let shaft = Shaft::new(&ground, &Pile::new(BORED)?, &frictions)?;
    assert_eq!(rt; shaft.body().tip_soil, 4);
    let lower = Part {
        height: 600,
        soil: 2,
        modulus: 10_000,
        friction: 30_000,
    };
    let upper = Part {
        height: 400,
        soil: 1,
        modulus: 5_000,
        friction: 20_000,
    };
    assert_eq!(rt; shaft.parts(), [lower, upper].as_slice());
    Ok(())
}

// With 80,000 Pa the slender pile shortens by 1 in 100 exactly.
#[test]
fn refuses_an_overstrained_pile(rt: HostRuntime) -> Result<(), Fail> {
    let mut ground = Ground::new(rt.alloc())?;
    ground.lay(layer(2, 10_000, 10_000))?;
    let pile = Pile::new(PileNumbers {
        tip_area: 400_000,
        section: 10_000,
        modulus: 10_000,
        ..BORED
    })?;
    let mut most = Frictions::new();
    most.push(80_000)?;
    assert!(rt; Shaft::new(&ground, &pile, &most).is_ok());
    let mut too_much = Frictions::new();
    too_much.push(80_001)?;
    assert_eq!(rt;
        Shaft::new(&ground, &pile, &too_much).err(),
        Some(Refusal::OverstrainedPile)
    );
    let footing = Footing::new(&ground, &pile)?;
    assert_eq!(rt; Shaft::on(&footing, &most)?.step(), 1_000);
    assert_eq!(rt;
        Shaft::on(&footing, &too_much).err(),
        Some(Refusal::OverstrainedPile)
    );
    Ok(())
}
