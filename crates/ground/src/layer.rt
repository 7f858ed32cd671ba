// One layer, as the site engineer gives it.
ghost use Rattle.std.specs.Prelude.{◌≡◌, [], ◌∷◌};
ghost use Rattle.terms.specs.Chains.{unless};
ghost use Rattle.ground.specs.Layers.{layer_flaw};

use terms::limits::{CEILING, MODULUS, PRESSURE, SOIL, THICKNESS};
use terms::refusal::Refusal;

// Any five numbers, the soil among them: a ground takes only those inside their limits, and its refusals are about all others.
#[derive(Clone, Copy, PartialEq, Eq, Debug)]
pub struct Layer {
    // 1 clay or silt, 2 sand or gravel, 3 chalk, 4 marl, 5 weathered rock
    pub soil: u64,
    // mm
    pub thickness: u64,
    // net limit pressure, kPa
    pub pressure: u64,
    // Ménard modulus, kPa
    pub modulus: u64,
    // greatest unit friction, kPa
    pub ceiling: u64,
}

// In the order of the fields.
impl From<[u64; 5]> for Layer {
    ghost from_gives = { λ numbers layer. numbers ≡ layer.soil ∷ layer.thickness ∷ layer.pressure ∷ layer.modulus ∷ layer.ceiling ∷ [] };

    fn from(numbers: [u64; 5]) -> Layer {
        let [soil, thickness, pressure, modulus, ceiling] = numbers;
        Layer {
            soil,
            thickness,
            pressure,
            modulus,
            ceiling,
        }
    }
}

impl Layer {
    // Refused for the first number outside its limits.
    pub fn check(&self) -> Result<(), Refusal>
        ensures { result ≡ unless (layer_flaw self.now) }
    {
        SOIL.admit(self.soil, Refusal::LayerNumber { field: 1 })?;
        THICKNESS.admit(self.thickness, Refusal::LayerNumber { field: 2 })?;
        PRESSURE.admit(self.pressure, Refusal::LayerNumber { field: 3 })?;
        MODULUS.admit(self.modulus, Refusal::LayerNumber { field: 4 })?;
        CEILING.admit(self.ceiling, Refusal::LayerNumber { field: 5 })
    }
}

// A new pressure and modulus for a layer; again any numbers.
#[derive(Clone, Copy, PartialEq, Eq, Debug)]
pub struct Amendment {
    // of the layer, counted from 0
    pub index: u64,
    // net limit pressure, kPa
    pub pressure: u64,
    // Ménard modulus, kPa
    pub modulus: u64,
}

// In the order of the fields.
impl From<[u64; 3]> for Amendment {
    ghost from_gives = { λ numbers amendment. numbers ≡ amendment.index ∷ amendment.pressure ∷ amendment.modulus ∷ [] };

    fn from(numbers: [u64; 3]) -> Amendment {
        let [index, pressure, modulus] = numbers;
        Amendment {
            index,
            pressure,
            modulus,
        }
    }
}
