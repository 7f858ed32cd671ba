// The cone pressuremeter's friction rule, for clay or silt.
ghost use Rattle.std.specs.Prelude.{◌≡◌};
ghost use Rattle.terms.specs.Fractions.{floor};
ghost use Rattle.friction.specs.Cone.{cone_at, cone_fraction, cone_answer};
ghost use Rattle.std.proofs.Common.{rules};

use crate::asked::Asked;
use crate::rule::{Asking, FrictionRule};
use terms::soil::Soil;

// kPa: from here on the friction is greatest.
const GREATEST_FROM: u64 = 1_500;

// kPa: the parabola is 0 again at twice that pressure.
const PARABOLA_END: u64 = 3_000;

// Pa
const GREATEST_FRICTION: u64 = 80_000;

// The parabola's factor, 8/225, so that it reaches the greatest friction at its top.
const FACTOR: u64 = 8;

const DIVISOR: u64 = 225;

// The friction in clay or silt.
fn friction_at(pressure: u64) -> u64
    ensures { result ≡ floor (cone_at pressure) }
{
    if pressure > GREATEST_FROM {
        return GREATEST_FRICTION;
    }
    FACTOR * pressure * (PARABOLA_END - pressure) / DIVISOR
}

#[derive(Clone, Copy)]
pub struct ConePressuremeter;

impl FrictionRule for ConePressuremeter {
    const TOLERANCE: u64 = 1;

    ghost TOLERANCE = { 1 };

    ghost fraction = { λ r. cone_fraction };

    ghost answer = { λ r. cone_answer };

    ghost least = { Prim.search rules };

    ghost most = { Prim.search rules };

    ghost beyond = { Prim.search rules };

    ghost within = { Prim.search rules };

    fn ask(&self, asking: Asking) -> Option<u64> {
        let asked = Asked::new(asking)?;
        match asked.soil {
            Soil::Clay => Some(friction_at(asked.pressure)),
            _ => None,
        }
    }
}
