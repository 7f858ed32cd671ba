// What a shaft holds.
ghost use Rattle.std.specs.Prelude.{◌≡◌, ◌*◌, ◌≤◌, true, length, take};
ghost use Rattle.terms.specs.Limits.{Within, max_layers, step_limits, length_limits};
ghost use Rattle.shaft.specs.Room.{Body, Contact, all_contacts, height_of, whole_resistance, most_strain};

use column::{Part, PileBody};
use terms::limits::MAX_LAYERS;

pub mod making;
pub mod views;

// The pile's body, the height of a slice in mm, and the parts of the shaft, the lowest first. A march over it fits 64 bits and asks no law
// beyond its limits, since its resistance strains the material by no more than 1 in 100. The parts are an array and how many of it count, since an
// `ArrayVec` is not `Copy`.
#[derive(Copy)]
pub struct Shaft {
    body: PileBody,
    step: u64,
    parts: [Part; MAX_LAYERS],
    count: usize,
    ghost whole: { length parts ≡ max_layers },
    ghost few: { count ≤ max_layers },
    ghost bodied: { Body body },
    ghost borne: { Contact body.tip_soil body.tip_modulus body.tip_resistance },
    ghost met: { all_contacts (take count parts) ≡ true },
    ghost stepped: { Within step_limits step },
    ghost deep: { height_of (take count parts) ≤ length_limits.most },
    ghost firm: { whole_resistance body (take count parts) ≤ most_strain * body.stiffness },
}
