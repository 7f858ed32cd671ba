// Both marches up the shaft of a pile, from a displacement of its tip to the node at its head.
#![tactic(auto)]

ghost use Rattle.std.specs.Prelude.{◌≡◌, min};
ghost use Rattle.column.specs.Tips.{tip_range};
ghost use Rattle.shaft.specs.Views.{body_of};
ghost use Rattle.march.specs.Sides.{head_by};
ghost use Rattle.march.specs.Curves.{case_of_bedded};

use crate::climb::Climb;
use column::Node;
use shaft::held::Shaft;
use transfer::TransferLaw;

mod climb;
mod slice;
#[cfg(test)]
mod tests;

// Which of the two marches. They differ in the formula and not in a constant, and the kinds are closed: as a trait they would need a law for each
// fact that a definition by cases gives of both, so that the code matches on them.
#[derive(Clone, Copy, PartialEq, Eq, Debug)]
pub enum Side {
    Lower,
    Upper,
}

// A shaft bedded in soil that resists it by a law: what a march goes up.
#[derive(Drop)]
pub struct Bedded<'a, L> {
    pub law: &'a L,
    pub shaft: &'a Shaft,
}

impl<'a, L: TransferLaw> Bedded<'a, L> {
    // The head of the pile by either march from the tip displacement `s` in nm; a displacement beyond the tip's range is taken as the range.
    pub fn march(&self, side: Side, s: u64) -> Node
        ensures { result ≡ head_by side (case_of_bedded L.curve self.now) (min s (tip_range (body_of self.now.shaft.now))) }
    {
        // Borrowed anew, since the checker stores no `self`.
        let climb = Climb {
            bedded: &*self,
            side,
        };
        let start = s.min(self.shaft.tip_range());
        let mut node = climb.tip(start);
        for part in self.shaft.parts() {
            node = climb.over(part, node);
        }
        node
    }
}
