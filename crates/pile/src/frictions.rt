// A list of unit frictions in Pa, one for each layer that the shaft passes, the uppermost first. It stands beside the layers, since a
// resistance is promised over any list, whatever rule it comes from.
ghost use Rattle.std.specs.Prelude.{◌≡◌, ◌≤◌, true, length, take};
ghost use Rattle.terms.specs.Limits.{max_layers};
ghost use Rattle.pile.specs.Frictions.{all_moderate};

use terms::limits::MAX_LAYERS;

pub mod list;

// At most as many as a ground has layers, none above the greatest friction. An array and how many of it count, since an `ArrayVec` is not `Copy`.
#[derive(Copy)]
pub struct Frictions {
    values: [u64; MAX_LAYERS],
    count: usize,
    ghost whole: { length values ≡ max_layers },
    ghost few: { count ≤ max_layers },
    ghost moderate: { all_moderate (take count values) ≡ true },
}

// Why a friction has no place in the list.
#[derive(Clone, Copy, PartialEq, Eq, Debug)]
pub enum Unfit {
    Full,
    TooGreat,
}
