// The limits of every number that a caller gives, each once.
ghost use Rattle.std.specs.Prelude.{◌≡◌};
ghost use Rattle.terms.specs.Limits.{outside, nearest};
ghost use Rattle.terms.specs.Chains.{when, unless};

use crate::refusal::Refusal;

// A whole number from `least` to `most`, both included.
#[derive(Clone, Copy, PartialEq, Eq, Debug)]
pub struct Limits {
    pub least: u64,
    pub most: u64,
}

impl Limits {
    pub fn excludes(self, x: u64) -> bool
        ensures { result ≡ outside self x }
    {
        x < self.least || x > self.most
    }

    // That refusal for a number outside.
    pub fn admit(self, x: u64, refusal: Refusal) -> Result<(), Refusal>
        ensures { result ≡ unless (when (outside self x) refusal) }
    {
        if self.excludes(x) {
            return Err(refusal);
        }
        Ok(())
    }

    // `x`, or the limit that is nearest to it.
    pub fn take_nearest(self, x: u64) -> u64
        ensures { result ≡ nearest self x }
    {
        self.least.max(x.min(self.most))
    }
}

// A layer: soil 1 clay or silt, 2 sand or gravel, 3 chalk, 4 marl, 5 weathered rock.
pub const SOIL: Limits = Limits { least: 1, most: 5 };

// mm
pub const THICKNESS: Limits = Limits {
    least: 100,
    most: 65_000,
};

// Net limit pressure, kPa
pub const PRESSURE: Limits = Limits {
    least: 0,
    most: 10_000,
};

// Ménard modulus, kPa
pub const MODULUS: Limits = Limits {
    least: 100,
    most: 1_000_000,
};

// The greatest unit friction that a layer may give, kPa
pub const CEILING: Limits = Limits {
    least: 1,
    most: 500,
};

// The layers of one ground, and their thickness in all, mm
pub const MAX_LAYERS: usize = 32;

pub const MAX_DEPTH: u64 = 100_000;

// A pile: category of installation.
pub const CATEGORY: Limits = Limits { least: 1, most: 20 };

// 1 for a vibrodriven pile, else 0; 1 only in the categories of driven steel.
pub const MARK: Limits = Limits { least: 0, most: 1 };

pub const VIBRODRIVEN_CATEGORY: Limits = Limits {
    least: 13,
    most: 16,
};

// mm
pub const DIAMETER: Limits = Limits {
    least: 200,
    most: 3_000,
};

pub const PERIMETER: Limits = Limits {
    least: 600,
    most: 10_000,
};

pub const LENGTH: Limits = Limits {
    least: 500,
    most: 25_000,
};

pub const STEP: Limits = Limits {
    least: 100,
    most: 1_000,
};

// The area under the tip, and the area of a section, mm²
pub const AREA: Limits = Limits {
    least: 10_000,
    most: 8_000_000,
};

// The modulus of the pile's own material, MPa
pub const PILE_MODULUS: Limits = Limits {
    least: 10_000,
    most: 210_000,
};

// Hundredths
pub const TIP_FACTOR: Limits = Limits {
    least: 100,
    most: 400,
};

// A question: load in kN, factors in thousandths.
pub const LOAD: Limits = Limits {
    least: 1,
    most: 1_000_000,
};

pub const FACTOR: Limits = Limits {
    least: 1_000,
    most: 2_000,
};

// Unit friction of a layer, Pa: a thousand times the greatest ceiling
pub const FRICTION: Limits = Limits {
    least: 0,
    most: 500_000,
};

// What a transfer law is asked with: unit resistance in Pa, displacement in nm; and the length of a hyperbola in nm.
pub const UNIT_RESISTANCE: Limits = Limits {
    least: 0,
    most: 40_000_000,
};

pub const DISPLACEMENT: Limits = Limits {
    least: 0,
    most: 2_000_000_000,
};

pub const HYPERBOLA_LENGTH: Limits = Limits {
    least: 1,
    most: 1_000_000_000,
};
