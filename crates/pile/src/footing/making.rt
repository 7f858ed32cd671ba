// Setting a pile in a ground, and reading both again.
ghost use Rattle.std.specs.Prelude.{◌≡◌, ◌≤◌, true, length};
ghost use Rattle.terms.specs.Limits.{max_layers};
ghost use Rattle.terms.specs.Chains.{Answers};
ghost use Rattle.ground.specs.Layers.{sound};
ghost use Rattle.ground.specs.Table.{strata};
ghost use Rattle.pile.specs.Numbers.{sturdy};
ghost use Rattle.pile.specs.Driven.{numbers_of};
ghost use Rattle.pile.specs.Tip.{shallow_refusal};
ghost use Rattle.pile.specs.Footing.{layers_under, numbers_on};

use crate::driven::Pile;
use crate::footing::Footing;
use crate::numbers::PileNumbers;
use crate::tip::depth_needed;
use ground::layer::Layer;
use ground::table::Ground;
use terms::refusal::Refusal;

impl<'a> Footing<'a> {
    // Refused where the ground ends above the averaging's.
    pub fn new(ground: &'a Ground, pile: &'a Pile) -> Result<Footing<'a>, Refusal>
        ensures { Answers (shallow_refusal (strata ground.now) (numbers_of pile.now)) (λ f. (layers_under f ≡ strata ground.now) × (numbers_on f ≡ numbers_of pile.now)) result }
    {
        let depth = depth_needed(pile);
        if ground.depth() < depth {
            return Err(Refusal::ShallowGround { depth });
        }
        Ok(Footing { ground, pile })
    }

    // The uppermost first.
    pub fn layers(&self) -> &'a [Layer]
        ensures value { result.now ≡ layers_under self.now }
        ensures few { length result.now ≤ max_layers }
        ensures fit { sound result.now ≡ true }
    {
        self.ground.layers()
    }

    pub fn numbers(&self) -> PileNumbers
        ensures value { result ≡ numbers_on self.now }
        ensures fit { sturdy result ≡ true }
    {
        self.pile.numbers()
    }
}
