// What a rule is asked, taken to be inside the limits once.
ghost use Rattle.std.specs.Prelude.{◌≡◌, true, false, MatchOption};
ghost use Rattle.terms.specs.Limits.{Within, category_limits, pressure_limits};
ghost use Rattle.terms.specs.Soils.{number_of_soil};

use crate::rule::Asking;
use terms::soil::Soil;

#[derive(Clone, Copy)]
pub(super) struct Asked {
    pub(super) soil: Soil,
    // A row of a rule's table, and nothing more to any rule.
    pub(super) category: u64,
    pub(super) pressure: u64,
    ghost category_within: { Within category_limits category },
    ghost pressure_within: { Within pressure_limits pressure },
}

impl Asked {
    ghost use Rattle.friction.specs.Rule.{beyond_limits};

    // None beyond the limits.
    pub(super) fn new(asking: Asking) -> Option<Asked>
        ensures { MatchOption result (beyond_limits asking.soil asking.category asking.pressure ≡ true) (λ a. (beyond_limits asking.soil asking.category asking.pressure ≡ false) × (number_of_soil a.soil ≡ asking.soil) × (a.category ≡ asking.category) × (a.pressure ≡ asking.pressure)) }
    {
        if asking.is_beyond() {
            return None;
        }
        let soil = Soil::try_from(asking.soil).ok()?;
        Some(Asked {
            soil,
            category: asking.category,
            pressure: asking.pressure,
        })
    }
}
