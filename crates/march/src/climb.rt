// What a march does on its way: at the tip, and over a part.
ghost use Rattle.std.specs.Prelude.{◌≡◌, ◌≤◌};
ghost use Rattle.column.specs.Slices.{cut};
ghost use Rattle.column.specs.Tips.{tip_range};
ghost use Rattle.shaft.specs.Room.{Contact, part_resistance};
ghost use Rattle.shaft.specs.Views.{body_of, step_of};
ghost use Rattle.march.specs.Sides.{tip_by, step_by, head_over};
ghost use Rattle.march.specs.Ahead.{Ahead};
ghost use Rattle.march.specs.Curves.{bare};

use crate::slice::{Slice, raise};
use crate::{Bedded, Side};
use column::{Node, Part};
use transfer::{Place, SoilContact, TransferLaw};

// Up which shaft, in which soil, which of the two marches goes.
#[derive(Drop)]
pub(super) struct Climb<'a, L> {
    pub(super) bedded: &'a Bedded<'a, L>,
    pub(super) side: Side,
}

impl<'a, L: TransferLaw> Climb<'a, L> {
    // Where it starts.
    pub(super) fn tip(&self, s: u64) -> Node
        requires { s ≤ tip_range (body_of self.now.bedded.now.shaft.now) }
        ensures { result ≡ tip_by self.now.side (bare (L.curve self.now.bedded.now.law.now) (body_of self.now.bedded.now.shaft.now)) s }
    {
        let body = self.bedded.shaft.body();
        let contact = SoilContact {
            soil: body.tip_soil,
            modulus: body.tip_modulus,
            resistance: body.tip_resistance,
            width: body.diameter,
        };
        let v = self.bedded.law.mobilised(Place::Tip, contact, s);
        let met = match self.side {
            Side::Lower => v,
            Side::Upper => raise(v, body.tip_resistance),
        };
        Node {
            displacement: s,
            force: body.tip_area * met,
        }
    }

    // From the node under a part to the one on top of it.
    pub(super) fn over(&self, part: &Part, under: Node) -> Node
        requires ahead { Ahead (body_of self.now.bedded.now.shaft.now) under part.now.height (part_resistance (body_of self.now.bedded.now.shaft.now) part.now) }
        requires contact { Contact part.now.soil part.now.modulus part.now.friction }
        ensures { result ≡ head_over (step_by self.now.side (bare (L.curve self.now.bedded.now.law.now) (body_of self.now.bedded.now.shaft.now))) under (cut (step_of self.now.bedded.now.shaft.now) part.now) }
    {
        let mut node = under;
        let mut left = part.height;
        // It cuts a height into slices and counts no index; `step_by` would need a cast.
        while left > 0 {
            let height = self.bedded.shaft.step().min(left);
            let slice = Slice {
                body: self.bedded.shaft.body(),
                part: Part { height, ..*part },
                under: node,
            };
            node = slice.over(self.bedded.law, self.side);
            left -= height;
        }
        node
    }
}
