// Either march over one slice.
ghost use Rattle.std.specs.Prelude.{◌≡◌, ◌+◌, ◌*◌, ◌≤◌};
ghost use Rattle.terms.specs.Limits.{step_limits, displacement_limits};
ghost use Rattle.column.specs.Rounding.{ceil};
ghost use Rattle.column.specs.Case.{raised, shaft_v};
ghost use Rattle.column.specs.Marches.{lower_step, upper_step};
ghost use Rattle.shaft.specs.Room.{Contact, part_resistance, most_strain};
ghost use Rattle.march.specs.Sides.{step_by};
ghost use Rattle.march.specs.Ahead.{Ahead};
ghost use Rattle.march.specs.Curves.{bare};

use crate::Side;
use column::{Node, Part, PileBody};
use transfer::{Place, SoilContact, TransferLaw};

// One more than the resistance `v`, as far as `limit` allows, Pa.
pub(super) fn raise(v: u64, limit: u64) -> u64
    ensures { result ≡ raised v limit }
{
    v.saturating_add(1).min(limit)
}

// A slice and the node under it. A march over it fits 64 bits, and asks its law inside the limits.
#[derive(Clone, Copy)]
pub(super) struct Slice<'a> {
    pub(super) body: &'a PileBody,
    pub(super) part: Part,
    pub(super) under: Node,
    ghost ahead: { Ahead body.now under part.height (part_resistance body.now part) },
    ghost short: { part.height ≤ step_limits.most },
    ghost met: { Contact part.soil part.modulus part.friction },
}

impl<'a> Slice<'a> {
    // What is met along the slice, where the pile has moved by `s` there, Pa.
    fn met<L: TransferLaw>(&self, law: &L, s: u64) -> u64
        requires { s ≤ displacement_limits.most }
        ensures value { result ≡ shaft_v (bare (L.curve law.now) self.now.body.now) self.now.part s }
        ensures capped { result ≤ self.now.part.friction }
    {
        let contact = SoilContact {
            soil: self.part.soil,
            modulus: self.part.modulus,
            resistance: self.part.friction,
            width: self.body.diameter,
        };
        law.mobilised(Place::Shaft, contact, s)
    }

    // The force on top, where so much resistance is met along the slice.
    fn force_over(&self, met: u64) -> u64
        requires { met ≤ self.now.part.friction }
        ensures value { result ≡ self.now.under.force + self.now.body.now.perimeter * self.now.part.height * met }
        ensures strain { result ≤ most_strain * self.now.body.now.stiffness }
    {
        self.under.force + self.body.perimeter * self.part.height * met
    }

    // How far the top has moved at most, where the force in the slice is nowhere above that one.
    #[tactic(auto, using(crate::proofs::Fitting::div_ceil_is))]
    fn furthest(&self, force: u64) -> u64
        requires { force ≤ most_strain * self.now.body.now.stiffness }
        ensures value { result ≡ self.now.under.displacement + ceil (force * self.now.part.height) self.now.body.now.stiffness }
        ensures near { result ≤ displacement_limits.most }
    {
        let product = force * self.part.height;
        self.under.displacement + product.div_ceil(self.body.stiffness)
    }

    fn lower<L: TransferLaw>(&self, law: &L) -> Node
        ensures { result ≡ lower_step (bare (L.curve law.now) self.now.body.now) self.now.part self.now.under }
    {
        let under = self.under;
        let displacement = under.displacement
            + under.force * self.part.height / self.body.stiffness;
        let met = self.met(law, under.displacement);
        Node {
            displacement,
            force: self.force_over(met),
        }
    }

    fn upper<L: TransferLaw>(&self, law: &L) -> Node
        ensures { result ≡ upper_step (bare (L.curve law.now) self.now.body.now) self.now.part self.now.under }
    {
        let q = self.part.friction;
        let furthest = self.furthest(self.force_over(q));
        let force = self.force_over(raise(self.met(law, furthest), q));
        Node {
            displacement: self.furthest(force),
            force,
        }
    }

    // From the node under the slice to the one on top of it.
    pub(super) fn over<L: TransferLaw>(&self, law: &L, side: Side) -> Node
        ensures { result ≡ step_by side (bare (L.curve law.now) self.now.body.now) self.now.part self.now.under }
    {
        match side {
            Side::Lower => self.lower(law),
            Side::Upper => self.upper(law),
        }
    }
}
