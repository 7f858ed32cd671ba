// Where to march from next, so that few marches find a tip displacement. Any place strictly between the two ends of the search would do.
ghost use Rattle.std.specs.Prelude.{◌-◌, ◌<◌};

// After so many probes the search has to be half as wide, or the middle is tried.
const PATIENCE: u64 = 3;

// Where a march ends, seen from the load; at the load counts as below.
#[derive(Clone, Copy, PartialEq, Eq, Debug)]
pub(super) enum End {
    Below,
    Above,
}

// How far from the load the marches from the two ends of the search end, in µN. The one of an end that stays is halved, so that the next
// probe, where a straight line between the ends meets the load, comes nearer to that end.
#[derive(Clone, Copy)]
pub(super) struct Probe {
    below: u64,
    above: u64,
    last: Option<End>,
    width: u64,
    tries: u64,
}

// Where a straight line from `below` under 0 to `above` over it crosses, strictly inside the width.
fn crossing(width: u64, below: u64, above: u64) -> u64
    requires { 1 < width }
    ensures { (0 < result) × (result < width) }
{
    let wide = u128::from(width);
    let whole = u128::from(below) + u128::from(above);
    if whole == 0 {
        return width / 2;
    }
    let gap = wide * u128::from(below) / whole;
    // Less than the width, so that `as` loses nothing and there is no error to hand on.
    gap.clamp(1, wide - 1) as u64
}

impl Probe {
    pub(super) fn new(below: u64, above: u64, width: u64) -> Probe {
        Probe {
            below,
            above,
            last: None,
            width,
            tries: 0,
        }
    }

    // A displacement strictly between `from` and `to`.
    pub(super) fn between(&mut self, from: u64, to: u64) -> u64
        requires { 1 < to - from }
        ensures { (from < result) × (result < to) }
    {
        let width = to - from;
        self.tries = self.tries.saturating_add(1);
        if self.tries > PATIENCE {
            let stuck = width > self.width / 2;
            self.width = width;
            self.tries = 0;
            if stuck {
                return from + width / 2;
            }
        }
        from + crossing(width, self.below, self.above)
    }

    // The march from the last probe ended there, and so far from the load.
    pub(super) fn ended(&mut self, end: End, by: u64) {
        let share = if self.last == Some(end) { 2 } else { 1 };
        match end {
            End::Below => {
                self.below = by;
                self.above /= share;
            }
            End::Above => {
                self.above = by;
                self.below /= share;
            }
        }
        self.last = Some(end);
    }
}
