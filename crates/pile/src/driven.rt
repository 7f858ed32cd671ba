// A pile whose numbers are all inside their limits.
ghost use Rattle.std.specs.Prelude.{◌≡◌, true};
ghost use Rattle.pile.specs.Numbers.{sturdy};

use crate::numbers::PileNumbers;

pub mod making;

#[derive(Clone, Copy)]
pub struct Pile {
    numbers: PileNumbers,
    ghost fit: { sturdy numbers ≡ true },
}
