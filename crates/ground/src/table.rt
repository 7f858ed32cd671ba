// The layer table: the layers of one ground, with room for as many as there may be.
ghost use Rattle.std.specs.Prelude.{◌≡◌, ◌≤◌, true, vec_len, vec_capacity};
ghost use Rattle.terms.specs.Limits.{max_layers, max_depth};
ghost use Rattle.ground.specs.Layers.{sound, depth};

use crate::layer::Layer;

pub mod edits;

#[derive(Drop)]
pub struct Ground {
    layers: Vec<Layer>,
    ghost few: { vec_len layers ≤ max_layers },
    ghost room: { max_layers ≤ vec_capacity layers },
    ghost fit: { sound layers.items ≡ true },
    ghost shallow: { depth layers.items ≤ max_depth },
}
