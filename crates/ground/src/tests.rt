// What a ground takes and what it refuses, at the ends of the limits.
use crate::layer::{Amendment, Layer};
use crate::table::Ground;
use std::test::Fail;
use terms::refusal::Refusal;

fn sand(thickness: u64) -> Layer {
    Layer::from([2, thickness, 1_200, 9_000, 90])
}

#[test]
fn numbers_in_the_order_of_the_fields(rt: HostRuntime) {
    let layer = Layer {
        soil: 2,
        thickness: 3_000,
        pressure: 1_200,
        modulus: 9_000,
        ceiling: 90,
    };
    assert_eq!(rt; Layer::from([2, 3_000, 1_200, 9_000, 90]), layer);
    let amendment = Amendment {
        index: 1,
        pressure: 1_500,
        modulus: 8_000,
    };
    assert_eq!(rt; Amendment::from([1, 1_500, 8_000]), amendment);
}

#[test]
fn refuses_each_number_outside_its_limits(rt: HostRuntime) {
    let refused = [
        (Layer::from([0, 100, 0, 100, 1]), 1),
        (Layer::from([6, 65_000, 10_000, 1_000_000, 500]), 1),
        (Layer::from([1, 99, 0, 100, 1]), 2),
        (Layer::from([5, 65_001, 10_000, 1_000_000, 500]), 2),
        (Layer::from([5, 65_000, 10_001, 1_000_000, 500]), 3),
        (Layer::from([1, 100, 0, 99, 1]), 4),
        (Layer::from([5, 65_000, 10_000, 1_000_001, 500]), 4),
        (Layer::from([1, 100, 0, 100, 0]), 5),
        (Layer::from([5, 65_000, 10_000, 1_000_000, 501]), 5),
    ];
    for (layer, field) in refused {
        assert_eq!(rt; layer.check(), Err(Refusal::LayerNumber { field }));
    }
    assert_eq!(rt; Layer::from([1, 100, 0, 100, 1]).check(), Ok(()));
    assert_eq!(rt;
        Layer::from([5, 65_000, 10_000, 1_000_000, 500]).check(),
        Ok(())
    );
}

#[test]
fn takes_32_layers(rt: HostRuntime) -> Result<(), Fail> {
    let mut ground = Ground::new(rt.alloc())?;
    for _ in 0..32 {
        ground.lay(sand(3_000))?;
    }
    assert_eq!(rt;
        ground.lay(sand(3_000)),
        Err(Refusal::SurplusLayer { index: 32 })
    );
    Ok(())
}

#[test]
fn reaches_100_m(rt: HostRuntime) -> Result<(), Fail> {
    let mut ground = Ground::new(rt.alloc())?;
    ground.lay(sand(65_000))?;
    assert_eq!(rt;
        ground.lay(sand(35_001)),
        Err(Refusal::DeepGround { index: 1 })
    );
    ground.lay(sand(35_000))?;
    assert_eq!(rt; ground.depth(), 100_000);
    Ok(())
}

#[test]
fn amends_one_layer(rt: HostRuntime) -> Result<(), Fail> {
    let mut ground = Ground::new(rt.alloc())?;
    ground.replace(&[sand(3_000), sand(4_000), sand(5_000)])?;
    ground.amend(Amendment::from([1, 10_000, 100]))?;
    let amended = Layer::from([2, 4_000, 10_000, 100, 90]);
    assert_eq!(rt;
        ground.layers(),
        [sand(3_000), amended, sand(5_000)].as_slice()
    );
    Ok(())
}

#[test]
fn refuses_to_amend(rt: HostRuntime) -> Result<(), Fail> {
    let mut ground = Ground::new(rt.alloc())?;
    ground.lay(sand(3_000))?;
    assert_eq!(rt;
        ground.amend(Amendment::from([1, 10_001, 99])),
        Err(Refusal::NoLayerToAmend)
    );
    assert_eq!(rt;
        ground.amend(Amendment::from([0, 10_001, 99])),
        Err(Refusal::LayerNumber { field: 2 })
    );
    assert_eq!(rt;
        ground.amend(Amendment::from([0, 10_000, 99])),
        Err(Refusal::LayerNumber { field: 3 })
    );
    Ok(())
}

#[test]
fn lifts_the_lowest(rt: HostRuntime) -> Result<(), Fail> {
    let mut ground = Ground::new(rt.alloc())?;
    assert_eq!(rt; ground.lift(), Err(Refusal::NoLayerToLift));
    ground.replace(&[sand(3_000), sand(4_000)])?;
    ground.lift()?;
    assert_eq!(rt; ground.layers(), [sand(3_000)].as_slice());
    Ok(())
}

#[test]
fn replaces_all(rt: HostRuntime) -> Result<(), Fail> {
    let mut ground = Ground::new(rt.alloc())?;
    ground.lay(sand(3_000))?;
    ground.replace(&[sand(4_000), sand(5_000)])?;
    assert_eq!(rt; ground.layers(), [sand(4_000), sand(5_000)].as_slice());
    ground.replace(&[])?;
    let none: &[Layer] = &[];
    assert_eq!(rt; ground.layers(), none);
    Ok(())
}

#[test]
fn replaces_none(rt: HostRuntime) -> Result<(), Fail> {
    let mut ground = Ground::new(rt.alloc())?;
    ground.lay(sand(3_000))?;
    assert_eq!(rt;
        ground.replace(&[sand(4_000), sand(99)]),
        Err(Refusal::LayerNumber { field: 2 })
    );
    assert_eq!(rt; ground.layers(), [sand(3_000)].as_slice());
    Ok(())
}
