// The transfer law of Frank and Zhao (1982), whose slopes come from the Ménard modulus.
ghost use Rattle.std.specs.Prelude.{◌≡◌, ◌≤◌};
ghost use Rattle.terms.specs.Soils.{number_of_soil};
ghost use Rattle.transfer.specs.FrankZhao.{slope, frank_zhao_at};
ghost use Rattle.transfer.specs.FrankZhaoCurve.{frank_zhao_transfers};

use crate::{Place, SoilContact, TransferLaw};
use terms::limits::{DIAMETER, DISPLACEMENT, MODULUS, UNIT_RESISTANCE};
use terms::soil::Soil;

// The first slope of a curve, in tenths of EM/B.
#[derive(Drop)]
struct Slopes {
    // In sand or gravel
    granular: u64,
    // In every other soil, chalk, marl and weathered rock among them
    other: u64,
}

const SHAFT: Slopes = Slopes {
    granular: 8,
    other: 20,
};

const TIP: Slopes = Slopes {
    granular: 48,
    other: 110,
};

// From tenths of kPa·nm/mm to Pa: 10 × 10^6 / 10^3.
const SCALE: u64 = 10_000;

#[derive(Clone, Copy, PartialEq, Eq, Debug)]
pub struct FrankZhao;

// It is bounded so that no product overflows.
fn slope(place: Place, soil: Soil) -> u64
    ensures value { result ≡ slope place (number_of_soil soil) }
    ensures bound { result ≤ 110 }
{
    let slopes = match place {
        Place::Shaft => SHAFT,
        Place::Tip => TIP,
    };
    match soil {
        Soil::Sand => slopes.granular,
        _ => slopes.other,
    }
}

impl TransferLaw for FrankZhao {
    ghost curve = { λ _. frank_zhao_at };

    ghost keeps = { λ _. frank_zhao_transfers };

    // The least of three straight branches: x, (2q + x)/5 and q.
    fn mobilised(&self, place: Place, contact: SoilContact, displacement: u64) -> u64 {
        let resistance = UNIT_RESISTANCE.take_nearest(contact.resistance);
        let modulus = MODULUS.take_nearest(contact.modulus);
        let displacement = DISPLACEMENT.take_nearest(displacement);
        let steep = slope(place, Soil::nearest(contact.soil)) * modulus * displacement;
        let divisor = SCALE * DIAMETER.take_nearest(contact.width);
        let first = steep / divisor;
        let second = (2 * resistance * divisor + steep) / (5 * divisor);
        first.min(second.min(resistance))
    }
}

#[cfg(test)]
mod tests {
    use super::{FrankZhao, Place, SoilContact, TransferLaw};

    const ALONG: SoilContact = SoilContact {
        soil: 1,
        modulus: 10_000,
        resistance: 50_000,
        width: 500,
    };

    const UNDER: SoilContact = SoilContact {
        soil: 1,
        modulus: 8_000,
        resistance: 2_000_000,
        width: 620,
    };

    #[test]
    fn shaft_has_three_branches(rt: HostRuntime) {
        assert_eq!(rt; FrankZhao.mobilised(Place::Shaft, ALONG, 0), 0);
        assert_eq!(rt; FrankZhao.mobilised(Place::Shaft, ALONG, 625_000), 25_000);
        assert_eq!(rt; FrankZhao.mobilised(Place::Shaft, ALONG, 1_000_000), 28_000);
        assert_eq!(rt; FrankZhao.mobilised(Place::Shaft, ALONG, 3_749_999), 49_999);
        assert_eq!(rt; FrankZhao.mobilised(Place::Shaft, ALONG, 3_750_000), 50_000);
    }

    #[test]
    fn tip_has_three_branches(rt: HostRuntime) {
        assert_eq!(rt; FrankZhao.mobilised(Place::Tip, UNDER, 1_234_567), 175_228);
        assert_eq!(rt;
            FrankZhao.mobilised(Place::Tip, UNDER, 9_000_000),
            1_055_483
        );
        assert_eq!(rt;
            FrankZhao.mobilised(Place::Tip, UNDER, 60_000_000),
            2_000_000
        );
    }

    #[test]
    fn only_soil_two_is_granular(rt: HostRuntime) {
        assert_eq!(rt;
            FrankZhao.mobilised(Place::Shaft, SoilContact { soil: 2, ..ALONG }, 1_000_000),
            16_000
        );
        assert_eq!(rt;
            FrankZhao.mobilised(Place::Shaft, SoilContact { soil: 2, ..ALONG }, 2_000_000),
            26_400
        );
        assert_eq!(rt;
            FrankZhao.mobilised(Place::Tip, SoilContact { soil: 2, ..UNDER }, 9_000_000),
            557_419
        );
        assert_eq!(rt;
            FrankZhao.mobilised(Place::Tip, SoilContact { soil: 2, ..UNDER }, 25_000_000),
            1_109_677
        );
        assert_eq!(rt;
            FrankZhao.mobilised(Place::Shaft, SoilContact { soil: 3, ..ALONG }, 1_000_000),
            28_000
        );
        assert_eq!(rt;
            FrankZhao.mobilised(Place::Tip, SoilContact { soil: 4, ..UNDER }, 9_000_000),
            1_055_483
        );
    }

    #[test]
    fn takes_the_nearest_inside(rt: HostRuntime) {
        assert_eq!(rt;
            FrankZhao.mobilised(Place::Shaft, SoilContact { soil: 0, ..ALONG }, 1_000_000),
            28_000
        );
        assert_eq!(rt;
            FrankZhao.mobilised(Place::Shaft, SoilContact { soil: 9, ..ALONG }, 1_000_000),
            28_000
        );
        assert_eq!(rt;
            FrankZhao.mobilised(
                Place::Shaft,
                SoilContact {
                    width: 100,
                    ..ALONG
                },
                300_000
            ),
            26_000
        );
        assert_eq!(rt;
            FrankZhao.mobilised(
                Place::Shaft,
                SoilContact {
                    width: 9_000,
                    ..ALONG
                },
                3_000_000
            ),
            20_000
        );
        assert_eq!(rt;
            FrankZhao.mobilised(
                Place::Shaft,
                SoilContact {
                    soil: 1,
                    modulus: 50,
                    resistance: 40_000_000,
                    width: 3_000
                },
                3_000_000_000
            ),
            133_333
        );
        assert_eq!(rt;
            FrankZhao.mobilised(
                Place::Tip,
                SoilContact {
                    soil: 1,
                    modulus: 2_000_000,
                    resistance: 50_000_000,
                    width: 200
                },
                u64::MAX
            ),
            40_000_000
        );
    }
}
