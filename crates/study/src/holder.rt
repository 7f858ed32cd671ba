// What a study holds.
use friction::rule::FrictionRule;
use ground::table::Ground;
use pile::driven::Pile;
use transfer::TransferLaw;

pub mod calling;

#[derive(Drop)]
pub struct Study<R: FrictionRule, L: TransferLaw> {
    rule: R,
    law: L,
    ground: Ground,
    pile: Option<Pile>,
}
