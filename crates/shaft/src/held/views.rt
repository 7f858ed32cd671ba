// What a shaft holds, read again.
ghost use Rattle.std.specs.Prelude.{◌≡◌};
ghost use Rattle.column.specs.Tips.{tip_range};
ghost use Rattle.shaft.specs.Room.{Room};
ghost use Rattle.shaft.specs.Views.{body_of, step_of, parts_of};

use crate::held::Shaft;
use column::{Part, PileBody};

// The tip's displacement is looked for up to a tenth of the diameter: so many nm for each mm of it.
const TIP_RANGE: u64 = 100_000;

impl Shaft {
    pub fn body(&self) -> &PileBody
        ensures value { result.now ≡ body_of self.now }
        ensures room { Room result.now (step_of self.now) (parts_of self.now) }
    {
        &self.body
    }

    // The height of a slice, mm.
    pub fn step(&self) -> u64
        ensures { result ≡ step_of self.now }
    {
        self.step
    }

    // The lowest first.
    pub fn parts(&self) -> &[Part]
        ensures { result.now ≡ parts_of self.now }
    {
        &self.parts[..self.count]
    }

    // T, the furthest displacement of the tip, nm.
    pub fn tip_range(&self) -> u64
        ensures { result ≡ tip_range (body_of self.now) }
    {
        TIP_RANGE * self.body.diameter
    }
}
