// The interface of a friction rule, and the limits that every rule keeps.
ghost use Rattle.std.specs.Prelude.{◌≡◌, ℕ, ◌≤◌, true, None, Option};
ghost use Rattle.terms.specs.Fractions.{Fraction};
ghost use Rattle.friction.specs.Rule.{Agrees, beyond_limits};

use terms::limits::{CATEGORY, PRESSURE, SOIL};

// What a rule is asked about a layer and a pile. Any numbers, soil and category among them: beyond the limits it has no answer.
#[derive(Clone, Copy, PartialEq, Eq, Debug)]
pub struct Asking {
    pub soil: u64,
    // of the pile
    pub category: u64,
    // net limit pressure, kPa
    pub pressure: u64,
}

impl Asking {
    // Beyond the limits no rule has an answer.
    pub fn is_beyond(self) -> bool
        ensures { result ≡ beyond_limits self.soil self.category self.pressure }
    {
        SOIL.excludes(self.soil)
            || CATEGORY.excludes(self.category)
            || PRESSURE.excludes(self.pressure)
    }
}

// Friction is in Pa. `fraction` is what the rule means and `answer` what it gives; asking changes nothing.
pub trait FrictionRule {
    const TOLERANCE: u64;

    ghost TOLERANCE: { ℕ };

    ghost fraction: { Self → ℕ → ℕ → ℕ → Option Fraction };

    ghost answer: { Self → ℕ → ℕ → ℕ → Option ℕ };

    fn tolerance_in_pascals() -> u64
        ensures same { result ≡ TOLERANCE }
        ensures small { (1 ≤ result) × (result ≤ 10) }
    {
        Self::TOLERANCE
    }

    fn ask(&self, asking: Asking) -> Option<u64>
        ensures { result ≡ answer self.now asking.soil asking.category asking.pressure };

    ghost least: { 1 ≤ TOLERANCE };

    ghost most: { TOLERANCE ≤ 10 };

    ghost beyond: { (r : Self) (soil category p : ℕ) → beyond_limits soil category p ≡ true → fraction r soil category p ≡ None };

    ghost within: { (r : Self) (soil category p : ℕ) → Agrees TOLERANCE (fraction r soil category p) (answer r soil category p) };
}
