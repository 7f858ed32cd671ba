// The bearing layer, the pressure averaged around the tip, and the tip resistance.
ghost use Rattle.std.specs.Prelude.{◌≡◌, ◌≤◌, MatchOption};
ghost use Rattle.terms.specs.Limits.{unit_resistance_limits};
ghost use Rattle.terms.specs.Chains.{Answers};
ghost use Rattle.ground.specs.Layers.{depth};
ghost use Rattle.ground.specs.Table.{strata};
ghost use Rattle.pile.specs.Driven.{numbers_of};
ghost use Rattle.pile.specs.Pressure.{integral};
ghost use Rattle.pile.specs.Bearing.{BearsAlone};
ghost use Rattle.pile.specs.Tip.{half_height, needed_depth, shallow_refusal, tip_resistance};
ghost use Rattle.pile.specs.Footing.{layers_under, numbers_on};

use crate::driven::Pile;
use crate::footing::Footing;
use ground::table::Ground;
use terms::refusal::Refusal;

// The least half height of the averaging, mm.
const LEAST_HALF_HEIGHT: u64 = 500;

// The averaging reaches so many half heights below the tip.
const HALF_HEIGHTS_BELOW: u64 = 3;

// kPa times a factor in hundredths, in Pa
const PASCALS: u64 = 10;

// The layer that bears at a depth: its index, and the depth of its top in mm.
#[derive(Clone, Copy, PartialEq, Eq, Debug)]
pub struct Bearing {
    pub index: u64,
    pub top: u64,
}

// The integral of the net limit pressure between two depths in mm, in kPa·mm.
pub fn pressure_between(ground: &Ground, from: u64, to: u64) -> u64
    ensures { result ≡ integral (strata ground.now) from to }
{
    if to <= from {
        return 0;
    }
    let mut above = from;
    let mut below = to;
    let mut sum = 0;
    for layer in ground.layers() {
        let thickness = layer.thickness;
        sum += layer.pressure * (below.min(thickness) - above.min(thickness));
        above = above.saturating_sub(thickness);
        below = below.saturating_sub(thickness);
    }
    sum
}

// The layer with its top at or above that depth and its bottom below it; none where the ground ends at or above it.
pub fn bearing_layer(ground: &Ground, at: u64) -> Option<Bearing>
    ensures { MatchOption result (depth (strata ground.now) ≤ at) (λ b. BearsAlone (strata ground.now) at b) }
{
    let mut top = 0;
    for (index, layer) in ground.layers().iter().enumerate() {
        if at - top < layer.thickness {
            let index = index as u64;
            return Some(Bearing { index, top });
        }
        top += layer.thickness;
    }
    None
}

// g, the half height of the averaging: the larger of half the diameter and 500 mm.
fn half_height(pile: &Pile) -> u64
    ensures { result ≡ half_height (numbers_of pile.now) }
{
    LEAST_HALF_HEIGHT.max(pile.numbers().diameter / 2)
}

// The depth that the ground has to reach for this pile, mm.
pub fn depth_needed(pile: &Pile) -> u64
    ensures { result ≡ needed_depth (numbers_of pile.now) }
{
    pile.numbers().length + HALF_HEIGHTS_BELOW * half_height(pile)
}

impl Footing<'_> {
    // The layer that bears the tip.
    pub fn bearing(&self) -> Bearing
        ensures { BearsAlone (layers_under self.now) (numbers_on self.now).length result }
    {
        bearing_layer(self.ground, self.pile.numbers().length).unwrap()
    }

    // qb in Pa.
    pub fn tip_resistance(&self) -> u64
        ensures value { result ≡ tip_resistance (layers_under self.now) (numbers_on self.now) }
        ensures small { result ≤ unit_resistance_limits.most }
    {
        let numbers = self.pile.numbers();
        let tip = numbers.length;
        let above = half_height(self.pile).min(tip - self.bearing().top);
        let below = HALF_HEIGHTS_BELOW * half_height(self.pile);
        let integral = pressure_between(self.ground, tip - above, tip + below);
        PASCALS * numbers.tip_factor * integral / (above + below)
    }
}

// qb in Pa of any pile in any ground, or a refusal where the ground ends above the averaging's.
pub fn tip_resistance(ground: &Ground, pile: &Pile) -> Result<u64, Refusal>
    ensures { Answers (shallow_refusal (strata ground.now) (numbers_of pile.now)) (λ q. (q ≡ tip_resistance (strata ground.now) (numbers_of pile.now)) × (q ≤ unit_resistance_limits.most)) result }
{
    Ok(Footing::new(ground, pile)?.tip_resistance())
}
