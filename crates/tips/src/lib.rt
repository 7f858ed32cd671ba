// The two tip displacements of a load: where the marches from the tip end just below it and just above it.
#![tactic(auto)]

ghost use Rattle.std.specs.Prelude.{◌≡◌, ℕ, ◌≤◌, true, MatchOption};
ghost use Rattle.column.specs.Tips.{tip_range, IsLowerTip, IsUpperTip, no_march_above};
ghost use Rattle.shaft.specs.Views.{body_of};
ghost use Rattle.march.specs.Curves.{case_of_bedded};
ghost use Rattle.tips.specs.FirstAbove.{end_by, FirstAbove};

use crate::probe::{End, Probe};
use march::{Bedded, Side};
use transfer::TransferLaw;

mod probe;

// The smallest tip displacement in 0 to T whose march ends above `floor`, in µN.
fn first_above<L: TransferLaw>(bedded: &Bedded<L>, side: Side, floor: u64) -> Option<u64>
    ensures { MatchOption result ((t : ℕ) → t ≤ tip_range (body_of bedded.now.shaft.now) → end_by side (case_of_bedded L.curve bedded.now) t ≤ floor) (λ s. FirstAbove side (case_of_bedded L.curve bedded.now) (tip_range (body_of bedded.now.shaft.now)) floor s) }
{
    let range = bedded.shaft.tip_range();
    let above = bedded.march(side, range).force;
    if above <= floor {
        return None;
    }
    let below = bedded.march(side, 0).force;
    if below > floor {
        return Some(0);
    }
    let mut probe = Probe::new(floor - below, above - floor, range);
    let mut from = 0;
    let mut to = range;
    // A search between two ends, and no count.
    while to - from > 1 {
        let s = probe.between(from, to);
        let end = bedded.march(side, s).force;
        if end > floor {
            probe.ended(End::Above, end - floor);
            to = s;
        } else {
            probe.ended(End::Below, floor - end);
            from = s;
        }
    }
    Some(to)
}

// The smallest tip displacement in 0 to T whose lower march ends above the load in µN; none where no such march does.
#[tactic(auto, using(crate::proofs::Searching::as_upper))]
pub fn upper_tip<L: TransferLaw>(bedded: &Bedded<L>, load: u64) -> Option<u64>
    ensures { MatchOption result (no_march_above (case_of_bedded L.curve bedded.now) (tip_range (body_of bedded.now.shaft.now)) load ≡ true) (λ s. IsUpperTip (case_of_bedded L.curve bedded.now) (tip_range (body_of bedded.now.shaft.now)) load s) }
{
    first_above(bedded, Side::Lower, load)
}

// The largest tip displacement in 0 to T whose upper march ends below the load in µN, or 0: one less than the first that ends above a µN less.
pub fn lower_tip<L: TransferLaw>(bedded: &Bedded<L>, load: u64) -> u64
    ensures { IsLowerTip (case_of_bedded L.curve bedded.now) (tip_range (body_of bedded.now.shaft.now)) load result }
{
    if load == 0 {
        return 0;
    }
    first_above(bedded, Side::Upper, load - 1).map_or(
        bedded.shaft.tip_range(),
        |first| first.saturating_sub(1),
    )
}
