// Making a pile from its numbers, and reading them again.
ghost use Rattle.std.specs.Prelude.{◌≡◌, true};
ghost use Rattle.terms.specs.Chains.{Answers};
ghost use Rattle.pile.specs.Numbers.{pile_flaw, sturdy};
ghost use Rattle.pile.specs.Driven.{numbers_of};

use crate::driven::Pile;
use crate::numbers::PileNumbers;
use terms::refusal::Refusal;

impl Pile {
    pub fn new(numbers: PileNumbers) -> Result<Pile, Refusal>
        ensures { Answers (pile_flaw numbers) (λ p. numbers_of p ≡ numbers) result }
    {
        numbers.check()?;
        Ok(Pile { numbers })
    }

    pub fn numbers(&self) -> PileNumbers
        ensures value { result ≡ numbers_of self.now }
        ensures fit { sturdy result ≡ true }
    {
        self.numbers
    }
}
