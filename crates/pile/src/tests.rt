// What a pile may be, the averaging around its tip, and its resistance, on small cases.
use crate::driven::Pile;
use crate::footing::Footing;
use crate::frictions::{Frictions, Unfit};
use crate::numbers::PileNumbers;
use crate::parts::{Parts, ShaftPart};
use crate::resistance::resistance;
use crate::tip::{Bearing, bearing_layer, tip_resistance};
use ground::layer::Layer;
use ground::table::Ground;
use std::test::Fail;
use terms::refusal::Refusal;

// Least and greatest number of each field; the mark is 0 in both.
const LEAST: PileNumbers = PileNumbers {
    category: 1,
    mark: 0,
    diameter: 200,
    perimeter: 600,
    tip_area: 10_000,
    section: 10_000,
    modulus: 10_000,
    length: 500,
    tip_factor: 100,
    step: 100,
};

const MOST: PileNumbers = PileNumbers {
    category: 20,
    mark: 0,
    diameter: 3_000,
    perimeter: 10_000,
    tip_area: 8_000_000,
    section: 8_000_000,
    modulus: 210_000,
    length: 25_000,
    tip_factor: 400,
    step: 1_000,
};

fn sand(thickness: u64, pressure: u64) -> Layer {
    Layer {
        soil: 2,
        thickness,
        pressure,
        modulus: 10_000,
        ceiling: 50,
    }
}

fn bored(length: u64) -> PileNumbers {
    PileNumbers {
        category: 1,
        mark: 0,
        diameter: 480,
        perimeter: 1_500,
        tip_area: 180_000,
        section: 180_000,
        modulus: 20_000,
        length,
        tip_factor: 110,
        step: 1_000,
    }
}

#[test]
fn numbers_in_the_order_of_the_fields(rt: HostRuntime) {
    let numbers = [
        20, 0, 3_000, 10_000, 8_000_000, 8_000_000, 210_000, 25_000, 400, 1_000,
    ];
    assert_eq!(rt; PileNumbers::from(numbers), MOST);
}

#[test]
fn takes_the_limits(rt: HostRuntime) {
    assert_eq!(rt; LEAST.check(), Ok(()));
    assert_eq!(rt; MOST.check(), Ok(()));
}

// In the order of the fields; the mark has nothing below its limits.
#[test]
fn refuses_each_number_below_its_limits(rt: HostRuntime) {
    let too_little = [
        PileNumbers {
            category: 0,
            ..LEAST
        },
        PileNumbers { mark: 2, ..LEAST },
        PileNumbers {
            diameter: 198,
            ..LEAST
        },
        PileNumbers {
            perimeter: 599,
            ..LEAST
        },
        PileNumbers {
            tip_area: 9_999,
            ..LEAST
        },
        PileNumbers {
            section: 9_999,
            ..LEAST
        },
        PileNumbers {
            modulus: 9_999,
            ..LEAST
        },
        PileNumbers {
            length: 499,
            ..LEAST
        },
        PileNumbers {
            tip_factor: 99,
            ..LEAST
        },
        PileNumbers { step: 99, ..LEAST },
    ];
    for (place, numbers) in too_little.into_iter().enumerate() {
        let field = place as u64 + 1;
        assert_eq!(rt;
            Pile::new(numbers).err(),
            Some(Refusal::PileNumber { field })
        );
    }
    let odd = PileNumbers {
        diameter: 201,
        ..LEAST
    };
    assert_eq!(rt; Pile::new(odd).err(), Some(Refusal::OddDiameter));
}

#[test]
fn refuses_each_number_above_its_limits(rt: HostRuntime) {
    let too_much = [
        PileNumbers {
            category: 21,
            ..MOST
        },
        PileNumbers { mark: 2, ..MOST },
        PileNumbers {
            diameter: 3_002,
            ..MOST
        },
        PileNumbers {
            perimeter: 10_001,
            ..MOST
        },
        PileNumbers {
            tip_area: 8_000_001,
            ..MOST
        },
        PileNumbers {
            section: 8_000_001,
            ..MOST
        },
        PileNumbers {
            modulus: 210_001,
            ..MOST
        },
        PileNumbers {
            length: 25_001,
            ..MOST
        },
        PileNumbers {
            tip_factor: 401,
            ..MOST
        },
        PileNumbers {
            step: 1_001,
            ..MOST
        },
    ];
    for (place, numbers) in too_much.into_iter().enumerate() {
        let field = place as u64 + 1;
        assert_eq!(rt;
            Pile::new(numbers).err(),
            Some(Refusal::PileNumber { field })
        );
    }
}

// The mark is held to the category only where every number is inside its limits.
#[test]
fn refuses_vibrodriven_last(rt: HostRuntime) -> Result<(), Fail> {
    let marked = PileNumbers {
        category: 12,
        mark: 1,
        ..LEAST
    };
    assert_eq!(rt; Pile::new(marked).err(), Some(Refusal::VibrodrivenCategory));
    let both = PileNumbers { step: 99, ..marked };
    assert_eq!(rt;
        Pile::new(both).err(),
        Some(Refusal::PileNumber { field: 10 })
    );
    let driven = PileNumbers {
        category: 13,
        ..marked
    };
    assert_eq!(rt; driven.check(), Ok(()));
    assert!(rt; driven.is_vibrodriven());
    assert!(rt; !LEAST.is_vibrodriven());
    assert_eq!(rt; Pile::new(driven)?.numbers(), driven);
    Ok(())
}

// From the top of the bearing layer; from g above the tip it would be 1,775 kPa in place of 2,000.
#[test]
fn averages_in_the_bearing_layer(rt: HostRuntime) -> Result<(), Fail> {
    let mut ground = Ground::new(rt.alloc())?;
    ground.lay(sand(1_800, 500))?;
    ground.lay(sand(10_000, 2_000))?;
    let pile = Pile::new(bored(2_000))?;
    assert_eq!(rt; Footing::new(&ground, &pile)?.tip_resistance(), 2_200_000);
    assert_eq!(rt; tip_resistance(&ground, &pile), Ok(2_200_000));
    Ok(())
}

#[test]
fn bears_below_an_edge(rt: HostRuntime) -> Result<(), Fail> {
    let mut ground = Ground::new(rt.alloc())?;
    ground.lay(sand(2_000, 500))?;
    ground.lay(sand(1_500, 2_000))?;
    let pile = Pile::new(bored(2_000))?;
    assert_eq!(rt;
        bearing_layer(&ground, 2_000),
        Some(Bearing {
            index: 1,
            top: 2_000,
        })
    );
    assert_eq!(rt; bearing_layer(&ground, 3_500), None);
    let footing = Footing::new(&ground, &pile)?;
    assert_eq!(rt;
        footing.bearing(),
        Bearing {
            index: 1,
            top: 2_000
        }
    );
    assert_eq!(rt; footing.tip_resistance(), 2_200_000);
    assert_eq!(rt; tip_resistance(&ground, &pile), Ok(2_200_000));
    assert_eq!(rt; footing.layers(), ground.layers());
    assert_eq!(rt; footing.numbers(), pile.numbers());
    Ok(())
}

#[test]
fn refuses_shallow_ground(rt: HostRuntime) -> Result<(), Fail> {
    let mut ground = Ground::new(rt.alloc())?;
    ground.lay(sand(3_499, 2_000))?;
    let pile = Pile::new(bored(2_000))?;
    assert_eq!(rt;
        Footing::new(&ground, &pile).err(),
        Some(Refusal::ShallowGround { depth: 3_500 })
    );
    let shallow = Err(Refusal::ShallowGround { depth: 3_500 });
    assert_eq!(rt; tip_resistance(&ground, &pile), shallow);
    assert_eq!(rt; resistance(&ground, &pile, &Frictions::new()), shallow);
    Ok(())
}

#[test]
fn adds_tip_and_shaft(rt: HostRuntime) -> Result<(), Fail> {
    let mut ground = Ground::new(rt.alloc())?;
    ground.lay(sand(10_000, 2_000))?;
    let pile = Pile::new(bored(1_000))?;
    let mut frictions = Frictions::new();
    frictions.push(50_000)?;
    assert_eq!(rt;
        Footing::new(&ground, &pile)?.resistance(&frictions),
        471_000_000_000
    );
    assert_eq!(rt; resistance(&ground, &pile, &frictions), Ok(471_000_000_000));
    Ok(())
}

// Down to a depth inside the second layer, to its top, and to none.
#[test]
fn cuts_layers_at_a_depth(rt: HostRuntime) {
    let layers = [sand(1_800, 500), sand(1_500, 2_000), sand(900, 1_000)];
    let first = ShaftPart {
        height: 1_800,
        layer: sand(1_800, 500),
    };
    let second = ShaftPart {
        height: 200,
        layer: sand(1_500, 2_000),
    };
    let mut parts = Parts::above(2_000, &layers);
    assert_eq!(rt; parts.next(), Some(first));
    assert_eq!(rt; parts.next(), Some(second));
    assert_eq!(rt; parts.next(), None);
    assert_eq!(rt; Parts::above(1_800, &layers).count(), 1);
    assert_eq!(rt; Parts::above(0, &layers).count(), 0);
}

#[test]
fn holds_32_frictions(rt: HostRuntime) -> Result<(), Fail> {
    let mut frictions = Frictions::new();
    assert_eq!(rt; frictions.push(500_001), Err(Unfit::TooGreat));
    for _ in 0..32 {
        frictions.push(500_000)?;
    }
    assert_eq!(rt; frictions.push(0), Err(Unfit::Full));
    assert_eq!(rt; frictions.values().len(), 32);
    let again = frictions.clone()?;
    assert_eq!(rt; again.values(), frictions.values());
    Ok(())
}

// A copy takes one more, and what it was copied from does not.
#[test]
fn copies_frictions(rt: HostRuntime) -> Result<(), Fail> {
    let mut frictions = Frictions::new();
    frictions.push(30_000)?;
    let mut copy = frictions;
    copy.push(40_000)?;
    assert_eq!(rt; frictions.values(), [30_000].as_slice());
    assert_eq!(rt; copy.values(), [30_000, 40_000].as_slice());
    Ok(())
}
