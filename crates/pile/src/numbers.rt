// The numbers of a pile, as the designer gives them.
ghost use Rattle.std.specs.Prelude.{◌≡◌, [], ◌∷◌};
ghost use Rattle.terms.specs.Chains.{unless};
ghost use Rattle.pile.specs.Numbers.{pile_flaw, shape_flaw, stiffness_flaw, vibrodriven};

use terms::limits::{
    AREA, CATEGORY, DIAMETER, LENGTH, MARK, PERIMETER, PILE_MODULUS, STEP, TIP_FACTOR,
    VIBRODRIVEN_CATEGORY,
};
use terms::refusal::Refusal;

// Any ten numbers, category and mark among them: a pile has only those inside their limits, and its refusals are about all others.
#[derive(Clone, Copy, PartialEq, Eq, Debug)]
pub struct PileNumbers {
    // category of installation, 1 to 20
    pub category: u64,
    // 1 for a vibrodriven pile, else 0
    pub mark: u64,
    // mm, even
    pub diameter: u64,
    // mm
    pub perimeter: u64,
    // the area under the tip, mm²
    pub tip_area: u64,
    // the area of a section, mm²
    pub section: u64,
    // of the pile's material, MPa
    pub modulus: u64,
    // depth of the tip, mm
    pub length: u64,
    // hundredths
    pub tip_factor: u64,
    // height of a slice of the shaft, mm
    pub step: u64,
}

// The mark of a vibrodriven pile.
const VIBRODRIVEN: u64 = 1;

// In the order of the fields.
impl From<[u64; 10]> for PileNumbers {
    ghost from_gives = { λ numbers pile. numbers ≡ pile.category ∷ pile.mark ∷ pile.diameter ∷ pile.perimeter ∷ pile.tip_area ∷ pile.section ∷ pile.modulus ∷ pile.length ∷ pile.tip_factor ∷ pile.step ∷ [] };

    fn from(numbers: [u64; 10]) -> PileNumbers {
        let [
            category,
            mark,
            diameter,
            perimeter,
            tip_area,
            section,
            modulus,
            length,
            tip_factor,
            step,
        ] = numbers;
        PileNumbers {
            category,
            mark,
            diameter,
            perimeter,
            tip_area,
            section,
            modulus,
            length,
            tip_factor,
            step,
        }
    }
}

impl PileNumbers {
    pub fn is_vibrodriven(&self) -> bool
        ensures { result ≡ vibrodriven self.now }
    {
        self.mark == VIBRODRIVEN
    }

    // Refused for the first flaw of category, mark, diameter, perimeter and tip area.
    fn check_shape(&self) -> Result<(), Refusal>
        ensures { result ≡ unless (shape_flaw self.now) }
    {
        CATEGORY.admit(self.category, Refusal::PileNumber { field: 1 })?;
        MARK.admit(self.mark, Refusal::PileNumber { field: 2 })?;
        DIAMETER.admit(self.diameter, Refusal::PileNumber { field: 3 })?;
        if self.diameter % 2 != 0 {
            return Err(Refusal::OddDiameter);
        }
        PERIMETER.admit(self.perimeter, Refusal::PileNumber { field: 4 })?;
        AREA.admit(self.tip_area, Refusal::PileNumber { field: 5 })
    }

    // Refused for the first flaw of section, modulus, length, tip factor and step.
    fn check_stiffness(&self) -> Result<(), Refusal>
        ensures { result ≡ unless (stiffness_flaw self.now) }
    {
        AREA.admit(self.section, Refusal::PileNumber { field: 6 })?;
        PILE_MODULUS.admit(self.modulus, Refusal::PileNumber { field: 7 })?;
        LENGTH.admit(self.length, Refusal::PileNumber { field: 8 })?;
        TIP_FACTOR.admit(self.tip_factor, Refusal::PileNumber { field: 9 })?;
        STEP.admit(self.step, Refusal::PileNumber { field: 10 })
    }

    // Refused for the first number outside its limits, or else for a vibrodriven mark in a category that knows none.
    pub fn check(&self) -> Result<(), Refusal>
        ensures { result ≡ unless (pile_flaw self.now) }
    {
        self.check_shape()?;
        self.check_stiffness()?;
        if self.is_vibrodriven() {
            VIBRODRIVEN_CATEGORY.admit(self.category, Refusal::VibrodrivenCategory)?;
        }
        Ok(())
    }
}
