// A pile in a ground that reaches as deep as the averaging under its tip.
ghost use Rattle.std.specs.Prelude.{◌≤◌};
ghost use Rattle.ground.specs.Layers.{depth};
ghost use Rattle.ground.specs.Table.{strata};
ghost use Rattle.pile.specs.Driven.{numbers_of};
ghost use Rattle.pile.specs.Tip.{needed_depth};

use crate::driven::Pile;
use ground::table::Ground;

pub mod making;

#[derive(Clone, Copy)]
pub struct Footing<'a> {
    pub(super) ground: &'a Ground,
    pub(super) pile: &'a Pile,
    ghost deep: { needed_depth (numbers_of pile.now) ≤ depth (strata ground.now) },
}
