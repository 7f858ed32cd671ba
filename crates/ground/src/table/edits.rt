// Making a ground, reading it, and the four ways of changing it.
ghost use Rattle.std.specs.Prelude.{◌≡◌, ◌≤◌, true, [], ◌∷◌, ◌++◌, length, IfOk, vec_len, vec_capacity};
ghost use Rattle.terms.specs.Limits.{max_layers, max_depth};
ghost use Rattle.terms.specs.Chains.{unless, Changes};
ghost use Rattle.ground.specs.Layers.{sound, depth};
ghost use Rattle.ground.specs.Edits.{lay_refusal, laid, amend_refusal, amended, lift_refusal, lifted, replace_refusal};
ghost use Rattle.ground.specs.Table.{strata};

use crate::layer::{Amendment, Layer};
use crate::table::Ground;
use std::alloc::{AllocError, Global};
use terms::limits::{MAX_DEPTH, MAX_LAYERS, MODULUS, PRESSURE};
use terms::refusal::Refusal;

// The thickness of all layers, mm, where it is at most the greatest depth.
#[tactic(auto, using(crate::proofs::Tables::depth_sum))]
fn total(layers: &[Layer]) -> u64
    requires { depth layers.now ≤ max_depth }
    ensures { result ≡ depth layers.now }
{
    layers.iter().map(|layer| layer.thickness).sum()
}

// Why this layer may not be laid below those above it.
fn admit(above: &[Layer], layer: &Layer) -> Result<(), Refusal>
    requires { depth above.now ≤ max_depth }
    ensures { result ≡ unless (lay_refusal above.now layer.now) }
{
    layer.check()?;
    let index = above.len() as u64;
    if above.len() >= MAX_LAYERS {
        return Err(Refusal::SurplusLayer { index });
    }
    if total(above) + layer.thickness > MAX_DEPTH {
        return Err(Refusal::DeepGround { index });
    }
    Ok(())
}

// Why these layers may not be laid, one after the other, on no layers. The 33rd turn is the last, since it refuses.
fn admit_all(layers: &[Layer]) -> Result<(), Refusal>
    ensures { result ≡ unless (replace_refusal layers.now) }
{
    for (i, layer) in layers.iter().enumerate() {
        admit(&layers[..i], layer)?;
    }
    Ok(())
}

impl Ground {
    // No layers. The room for all that may come is reserved here, so that no later call allocates.
    pub fn new(heap: Global) -> Result<Ground, AllocError>
        ensures { IfOk result (λ g. strata g ≡ []) }
    {
        let layers = Vec::with_capacity(heap, MAX_LAYERS)?;
        Ok(Ground { layers })
    }

    // The layers, the uppermost first.
    pub fn layers(&self) -> &[Layer]
        ensures value { result.now ≡ strata self.now }
        ensures few { length result.now ≤ max_layers }
        ensures fit { sound result.now ≡ true }
        ensures shallow { depth result.now ≤ max_depth }
    {
        self.layers.as_slice()
    }

    // From the surface to the bottom of the lowest layer, mm.
    pub fn depth(&self) -> u64
        ensures { result ≡ depth (strata self.now) }
    {
        total(self.layers())
    }

    // One more layer below.
    pub fn lay(&mut self, layer: Layer) -> Result<(), Refusal>
        ensures { Changes strata (lay_refusal (strata self.old) layer) self.old (laid (strata self.old) layer) result self.new }
    {
        admit(self.layers(), &layer)?;
        self.layers.push_reserved(layer);
        Ok(())
    }

    // A new pressure and a new modulus for the layer of that index, in place.
    pub fn amend(&mut self, amendment: Amendment) -> Result<(), Refusal>
        ensures { Changes strata (amend_refusal (strata self.old) amendment.index amendment.pressure amendment.modulus) self.old (amended (strata self.old) amendment.index amendment.pressure amendment.modulus) result self.new }
    {
        let layer = self
            .layers
            .get_mut(amendment.index as usize)
            .ok_or(Refusal::NoLayerToAmend)?;
        PRESSURE.admit(amendment.pressure, Refusal::LayerNumber { field: 2 })?;
        MODULUS.admit(amendment.modulus, Refusal::LayerNumber { field: 3 })?;
        layer.pressure = amendment.pressure;
        layer.modulus = amendment.modulus;
        Ok(())
    }

    // The lowest layer removed.
    pub fn lift(&mut self) -> Result<(), Refusal>
        ensures { Changes strata (lift_refusal (strata self.old)) self.old (lifted (strata self.old)) result self.new }
    {
        // Tested first, since an empty `pop` does not promise that the whole ground is as it was.
        if self.layers.is_empty() {
            return Err(Refusal::NoLayerToLift);
        }
        self.layers.pop();
        Ok(())
    }

    // These layers in place of all, or, if one of them is refused, no change.
    pub fn replace(&mut self, layers: &[Layer]) -> Result<(), Refusal>
        ensures { Changes strata (replace_refusal layers.now) self.old layers.now result self.new }
    {
        admit_all(layers)?;
        self.layers.clear();
        // The room was reserved at the making.
        self.layers.extend_from_slice(layers).unwrap();
        Ok(())
    }
}
