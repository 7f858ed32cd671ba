// The soils that the method knows, which callers give by number.
ghost use Rattle.std.specs.Prelude.{◌≡◌};
ghost use Rattle.terms.specs.Limits.{nearest, soil_limits};
ghost use Rattle.terms.specs.Soils.{number_of_soil, IsSoil};

use crate::limits::SOIL;

#[derive(Clone, Copy, PartialEq, Eq, Debug)]
pub enum Soil {
    // Clay or silt
    Clay,
    // Sand or gravel
    Sand,
    Chalk,
    Marl,
    // Weathered rock
    Rock,
}

// A number that no soil has.
#[derive(Clone, Copy, PartialEq, Eq, Debug)]
pub struct UnknownSoil(pub u64);

impl TryFrom<u64> for Soil {
    type Error = UnknownSoil;

    ghost try_from_gives = { IsSoil };

    fn try_from(number: u64) -> Result<Soil, UnknownSoil> {
        match number {
            1 => Ok(Soil::Clay),
            2 => Ok(Soil::Sand),
            3 => Ok(Soil::Chalk),
            4 => Ok(Soil::Marl),
            5 => Ok(Soil::Rock),
            _ => Err(UnknownSoil(number)),
        }
    }
}

impl Soil {
    // The soil of the number inside the limits that is nearest.
    pub fn nearest(number: u64) -> Soil
        ensures { number_of_soil result ≡ nearest soil_limits number }
    {
        Soil::try_from(SOIL.take_nearest(number)).unwrap()
    }
}
