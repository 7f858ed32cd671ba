// An empty list of frictions, one more at its end, and its values.
ghost use Rattle.std.specs.Prelude.{◌≡◌, ◌≤◌, true, [], length};
ghost use Rattle.terms.specs.Limits.{max_layers};
ghost use Rattle.pile.specs.Frictions.{all_moderate};
ghost use Rattle.pile.specs.FrictionList.{friction_list, Pushes};

use crate::frictions::{Frictions, Unfit};
use std::alloc::AllocError;
use terms::limits::{FRICTION, MAX_LAYERS};

impl Frictions {
    pub fn new() -> Frictions
        ensures { friction_list result ≡ [] }
    {
        Frictions {
            values: [0; MAX_LAYERS],
            count: 0,
        }
    }

    // One more; where it has no place, nothing is changed.
    pub fn push(&mut self, friction: u64) -> Result<(), Unfit>
        ensures { Pushes self.old friction result self.new }
    {
        if self.count >= MAX_LAYERS {
            return Err(Unfit::Full);
        }
        if FRICTION.excludes(friction) {
            return Err(Unfit::TooGreat);
        }
        self.values[self.count] = friction;
        self.count += 1;
        Ok(())
    }

    pub fn values(&self) -> &[u64]
        ensures value { result.now ≡ friction_list self.now }
        ensures few { length result.now ≤ max_layers }
        ensures moderate { all_moderate result.now ≡ true }
    {
        &self.values[..self.count]
    }
}

// By hand, so that its promise can be read.
impl Clone for Frictions {
    ghost is_clone = { λ f g. g ≡ f };

    ghost is_infallible = { λ _. Unit {0} };

    fn clone(&self) -> Result<Frictions, AllocError> {
        Ok(*self)
    }
}
