// The pressuremeter's friction rule: α/100·(a·p + 10,000·b)·(1 − 1/W).
ghost use Rattle.std.specs.Prelude.{◌≡◌, ◌*◌, ◌^◌, ◌<◌, ◌≤◌};
ghost use Rattle.terms.specs.Soils.{number_of_soil};
ghost use Rattle.friction.specs.Rule.{Agrees};
ghost use Rattle.friction.specs.Series.{horner};
ghost use Rattle.friction.specs.Pressuremeter.{pressuremeter_fraction, pressuremeter_answer, alpha_of, slope_of, base_of, growth_of, line_at, rounded, last_term, scale_of_sum};
ghost use Rattle.friction.specs.Tables.{pressuremeter_within};
ghost use Rattle.std.proofs.Common.{rules};

use crate::asked::Asked;
use crate::rule::{Asking, FrictionRule};
use terms::soil::Soil;

// W is the sum of u^k/k! for k from 0 to this one.
const LAST_TERM: u64 = 60;

// W is reckoned in parts of 10^9.
const SCALE: u128 = 1_000_000_000;

// α is in hundredths.
const ALPHA_DIVISOR: u128 = 100;

// b is in units of 10,000 Pa.
const BASE_UNIT: u64 = 10_000;

// u is c·p/10,000.
const GROWTH_DIVISOR: u64 = 10_000;

// α by category from 1 to 20 and soil from 1 to 5; None where the rule has no friction.
const ALPHA: [[Option<u64>; 5]; 20] = [
    [Some(110), Some(100), Some(180), Some(150), Some(160)],
    [Some(125), Some(140), Some(180), Some(150), Some(160)],
    [Some(70), Some(60), Some(50), Some(90), None],
    [Some(125), Some(140), Some(170), Some(140), None],
    [Some(130), None, None, None, None],
    [Some(150), Some(180), Some(210), Some(160), Some(160)],
    [Some(190), Some(210), Some(170), Some(170), None],
    [Some(60), Some(60), Some(100), Some(70), None],
    [Some(110), Some(140), Some(100), Some(90), None],
    [Some(200), Some(210), Some(190), Some(160), None],
    [Some(120), Some(140), Some(210), Some(100), None],
    [Some(80), Some(120), Some(40), Some(90), None],
    [Some(120), Some(70), Some(50), Some(100), Some(100)],
    [Some(110), Some(100), Some(40), Some(100), Some(90)],
    [Some(270), Some(290), Some(240), Some(240), Some(240)],
    [Some(90), Some(80), Some(40), Some(120), Some(120)],
    [None, None, None, None, None],
    [None, None, None, None, None],
    [Some(270), Some(290), Some(240), Some(240), Some(240)],
    [Some(340), Some(380), Some(310), Some(310), Some(310)],
];

// a, b and c of a soil.
#[derive(Clone, Copy)]
struct Line {
    slope: u64,
    base: u64,
    growth: u64,
}

impl Line {
    fn of(soil: Soil) -> Line
        ensures { (result.slope ≡ slope_of (number_of_soil soil)) × (result.base ≡ base_of (number_of_soil soil)) × (result.growth ≡ growth_of (number_of_soil soil)) }
    {
        let (slope, base, growth) = match soil {
            Soil::Clay => (3, 4, 35),
            Soil::Sand => (10, 6, 12),
            Soil::Chalk => (7, 7, 13),
            Soil::Marl => (8, 8, 30),
            Soil::Rock => (10, 8, 30),
        };
        Line {
            slope,
            base,
            growth,
        }
    }
}

impl Asked {
    fn alpha(self) -> Option<u64>
        ensures { result ≡ alpha_of (number_of_soil self.soil) self.category }
    {
        ALPHA[(self.category - 1) as usize][self.soil as usize]
    }

    // a·p + 10,000·b, at most 10·10,000 + 10,000·8.
    fn line(self) -> u64
        ensures { (result ≡ line_at (number_of_soil self.soil) self.pressure) × (result ≤ 180000) }
    {
        let line = Line::of(self.soil);
        line.slope * self.pressure + BASE_UNIT * line.base
    }

    // c·p, which is u in parts of 10,000; at most 35·10,000.
    fn growth(self) -> u64
        ensures { (result ≡ growth_of (number_of_soil self.soil) * self.pressure) × (result ≤ 350000) }
    {
        Line::of(self.soil).growth * self.pressure
    }
}

// W times SCALE for u = x/10,000, by Horner's way from the last term down, each quotient rounded down.
// At the greatest x it is less than 2^90, so that every product fits 128 bits.
// A loop and no fold: that a product fits depends on its term, which the invariant says in one line and a closure cannot see.
#[tactic(auto, using(crate::proofs::Bounds::horner_turns))]
fn scaled_sum(x: u64) -> u128
    requires { x ≤ 350000 }
    ensures { (result ≡ horner scale_of_sum x 10000 0 last_term) × (result < 2 ^ 90) × (scale_of_sum ≤ result) }
{
    let wide = u128::from(x);
    let mut h = SCALE;
    for k in (1..=LAST_TERM).rev() {
        h = SCALE + wide * h / u128::from(GROWTH_DIVISOR * k);
    }
    h
}

// amount/100·(1 − 1/W) rounded down, for W = h/SCALE; the amount is at most 380·180,000.
// The quotient is at most the amount, so that `as` loses nothing and there is no error to hand on.
fn rounded_down(amount: u64, h: u128) -> u64
    requires { (amount ≤ 68400000) × (scale_of_sum ≤ h) × (h < 2 ^ 90) }
    ensures { result ≡ rounded amount h }
{
    (u128::from(amount) * (h - SCALE) / (ALPHA_DIVISOR * h)) as u64
}

#[derive(Clone, Copy)]
pub struct Pressuremeter;

impl FrictionRule for Pressuremeter {
    const TOLERANCE: u64 = 10;

    ghost TOLERANCE = { 10 };

    ghost fraction = { λ r. pressuremeter_fraction last_term };

    ghost answer = { λ r. pressuremeter_answer };

    ghost least = { Prim.search rules };

    ghost most = { Prim.search rules };

    ghost beyond = { Prim.search rules };

    ghost within = { λ r. pressuremeter_within };

    // Any answer inside the tolerance is right; docs/METHOD.md says which one this is.
    #[tactic(auto, using(crate::specs::Tables::pressuremeter_within))]
    fn ask(&self, asking: Asking) -> Option<u64>
        ensures same { result ≡ pressuremeter_answer asking.soil asking.category asking.pressure }
        ensures near { Agrees 10 (pressuremeter_fraction last_term asking.soil asking.category asking.pressure) result }
    {
        let asked = Asked::new(asking)?;
        let alpha = asked.alpha()?;
        let sum = scaled_sum(asked.growth());
        Some(rounded_down(alpha * asked.line(), sum))
    }
}
