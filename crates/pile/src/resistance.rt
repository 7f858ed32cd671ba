// The resistance R of a pile, in µN, over a list of unit frictions.
ghost use Rattle.std.specs.Prelude.{◌≡◌, ◌≤◌};
ghost use Rattle.terms.specs.Chains.{Answers};
ghost use Rattle.ground.specs.Table.{strata};
ghost use Rattle.pile.specs.Driven.{numbers_of};
ghost use Rattle.pile.specs.FrictionList.{friction_list};
ghost use Rattle.pile.specs.Tip.{shallow_refusal};
ghost use Rattle.pile.specs.Shaft.{parts_above, shaft_resistance, resistance_over, max_along_shaft, max_resistance};
ghost use Rattle.pile.specs.Footing.{layers_under, numbers_on};

use crate::driven::Pile;
use crate::footing::Footing;
use crate::frictions::Frictions;
use crate::parts::Parts;
use ground::table::Ground;
use terms::refusal::Refusal;

impl Footing<'_> {
    // Along the shaft: perimeter × height × friction, over the layers above the tip.
    fn along_shaft(&self, frictions: &Frictions) -> u64
        ensures value { result ≡ shaft_resistance (numbers_on self.now).perimeter (parts_above (numbers_on self.now).length (layers_under self.now)) (friction_list frictions.now) }
        ensures small { result ≤ max_along_shaft }
    {
        let numbers = self.numbers();
        let parts = Parts::above(numbers.length, self.layers());
        let mut sum = 0;
        for (part, friction) in parts.zip(frictions.values()) {
            sum += numbers.perimeter * part.height * friction;
        }
        sum
    }

    // R over any list of frictions.
    pub fn resistance(&self, frictions: &Frictions) -> u64
        ensures value { result ≡ resistance_over (layers_under self.now) (numbers_on self.now) (friction_list frictions.now) }
        ensures small { result ≤ max_resistance }
    {
        let numbers = self.numbers();
        numbers.tip_area * self.tip_resistance() + self.along_shaft(frictions)
    }
}

// The same of any pile in any ground, or a refusal where the ground ends above the averaging's.
pub fn resistance(ground: &Ground, pile: &Pile, frictions: &Frictions) -> Result<u64, Refusal>
    ensures { Answers (shallow_refusal (strata ground.now) (numbers_of pile.now)) (λ n. (n ≡ resistance_over (strata ground.now) (numbers_of pile.now) (friction_list frictions.now)) × (n ≤ max_resistance)) result }
{
    Ok(Footing::new(ground, pile)?.resistance(frictions))
}
