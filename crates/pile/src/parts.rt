// The parts of the layers above a depth, one after the other from the top down.
ghost use Rattle.std.specs.Prelude.{◌≡◌};
ghost use Rattle.std.specs.Iterator.{YieldsFirst, item_count};
ghost use Rattle.pile.specs.Shaft.{parts_above};
ghost use Rattle.pile.specs.Parts.{parts_left};

use ground::layer::Layer;

// The part of a layer that lies above a depth.
#[derive(Clone, Copy, PartialEq, Eq, Debug)]
pub struct ShaftPart {
    // mm
    pub height: u64,
    pub layer: Layer,
}

// The layers from the next one on, and what is left of the depth at its top, mm.
#[derive(Drop)]
pub struct Parts<'a> {
    layers: &'a [Layer],
    left: u64,
}

impl<'a> Parts<'a> {
    // Every layer whose top is above the depth, down to it.
    pub fn above(depth: u64, layers: &'a [Layer]) -> Parts<'a>
        ensures { parts_left result ≡ parts_above depth layers.now }
    {
        Parts {
            layers,
            left: depth,
        }
    }
}

impl Iterator for Parts<'_> {
    type Item = ShaftPart;

    ghost next_gives = { YieldsFirst parts_left };

    ghost remaining = { item_count parts_left };

    fn next(&mut self) -> Option<ShaftPart> {
        let (layer, others) = self.layers.split_first()?;
        if self.left == 0 {
            return None;
        }
        let height = layer.thickness.min(self.left);
        self.layers = others;
        self.left -= height;
        Some(ShaftPart {
            height,
            layer: *layer,
        })
    }
}
