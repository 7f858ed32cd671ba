// How far a resistance may be from its exact fraction.
ghost use Rattle.std.specs.Prelude.{◌≡◌};
ghost use Rattle.pile.specs.Driven.{numbers_of};
ghost use Rattle.resistance.specs.Resistance.{margin_of};

use friction::rule::FrictionRule;
use pile::driven::Pile;

// What rounding 7/10 down adds to the rule's tolerance, Pa; the ceiling adds nothing.
const ROUNDING: u64 = 1;

// (tolerance + 1)·P·D + A, in µN: the shaft's part by the rule's own constant, and 1 Pa under the tip for rounding qb.
pub fn margin<R: FrictionRule>(pile: &Pile) -> u64
    ensures { result ≡ margin_of R.FrictionRule.TOLERANCE (numbers_of pile.now) }
{
    let numbers = pile.numbers();
    (R::tolerance_in_pascals() + ROUNDING) * numbers.perimeter * numbers.length + numbers.tip_area
}
