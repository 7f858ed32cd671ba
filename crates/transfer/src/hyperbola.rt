// A transfer law of two hyperbolas, one for the shaft and one for the tip, which take no account of the soil.
ghost use Rattle.std.specs.Prelude.{◌≡◌};
ghost use Rattle.terms.specs.Limits.{Within, hyperbola_limits};
ghost use Rattle.terms.specs.Chains.{Answers};
ghost use Rattle.transfer.specs.Hyperbola.{hyperbola, length_at, lengths_refusal};
ghost use Rattle.transfer.specs.HyperbolaCurve.{hyperbolas_transfer};

use crate::{Place, SoilContact, TransferLaw};
use terms::limits::{DISPLACEMENT, HYPERBOLA_LENGTH, UNIT_RESISTANCE};
use terms::refusal::Refusal;

// The length of a curve is the displacement at which half of the resistance is mobilised, nm.
#[derive(Clone, Copy, PartialEq, Eq, Debug)]
pub struct Hyperbola {
    shaft_length: u64,
    tip_length: u64,
    ghost shaft_within: { Within hyperbola_limits shaft_length },
    ghost tip_within: { Within hyperbola_limits tip_length },
}

impl Hyperbola {
    // Lengths in nm; the shaft's is tried first.
    pub fn new(shaft_length: u64, tip_length: u64) -> Result<Hyperbola, Refusal>
        ensures { Answers (lengths_refusal shaft_length tip_length) (λ law. (law.shaft_length ≡ shaft_length) × (law.tip_length ≡ tip_length)) result }
    {
        HYPERBOLA_LENGTH.admit(shaft_length, Refusal::ShaftLength)?;
        HYPERBOLA_LENGTH.admit(tip_length, Refusal::TipLength)?;
        Ok(Hyperbola {
            shaft_length,
            tip_length,
        })
    }

    fn curve_length(&self, place: Place) -> u64
        ensures value { result ≡ length_at place self.now.shaft_length self.now.tip_length }
        ensures within { Within hyperbola_limits result }
    {
        match place {
            Place::Shaft => self.shaft_length,
            Place::Tip => self.tip_length,
        }
    }
}

impl TransferLaw for Hyperbola {
    ghost curve = { λ law place. hyperbola (length_at place law.shaft_length law.tip_length) };

    ghost keeps = { λ law. hyperbolas_transfer law.shaft_length law.tip_length law.shaft_within.0 law.tip_within.0 };

    // No curve of this law looks at soil, modulus or width.
    fn mobilised(&self, place: Place, contact: SoilContact, displacement: u64) -> u64 {
        let curve_length = self.curve_length(place);
        let resistance = UNIT_RESISTANCE.take_nearest(contact.resistance);
        let displacement = DISPLACEMENT.take_nearest(displacement);
        resistance * displacement / (curve_length + displacement)
    }
}

#[cfg(test)]
mod tests {
    use super::{Hyperbola, Place, SoilContact, TransferLaw};
    use std::test::Fail;
    use terms::refusal::{Part, Refusal};

    const CONTACT: SoilContact = SoilContact {
        soil: 1,
        modulus: 10_000,
        resistance: 50_000,
        width: 500,
    };

    #[test]
    fn has_a_length_for_each_curve(rt: HostRuntime) -> Result<(), Fail> {
        let law = Hyperbola::new(1_000_000, 250_000)?;
        assert_eq!(rt; law.mobilised(Place::Shaft, CONTACT, 0), 0);
        assert_eq!(rt; law.mobilised(Place::Shaft, CONTACT, 3_000_000), 37_500);
        assert_eq!(rt; law.mobilised(Place::Tip, CONTACT, 1_000_000), 40_000);
        Ok(())
    }

    #[test]
    fn takes_the_nearest_inside(rt: HostRuntime) -> Result<(), Fail> {
        let law = Hyperbola::new(1, 1_000_000_000)?;
        assert_eq!(rt;
            law.mobilised(
                Place::Shaft,
                SoilContact {
                    soil: 0,
                    modulus: 0,
                    resistance: 50_000_000,
                    width: 0
                },
                3_000_000_000
            ),
            39_999_999
        );
        assert_eq!(rt;
            law.mobilised(
                Place::Tip,
                SoilContact { soil: 9, ..CONTACT },
                3_000_000_000
            ),
            33_333
        );
        Ok(())
    }

    #[test]
    fn refuses_a_length_outside_its_limits(rt: HostRuntime) {
        assert_eq!(rt; Hyperbola::new(0, 1), Err(Refusal::ShaftLength));
        assert_eq!(rt; Hyperbola::new(1, 1_000_000_001), Err(Refusal::TipLength));
        assert_eq!(rt; Hyperbola::new(1_000_000_001, 0), Err(Refusal::ShaftLength));
    }

    #[test]
    fn refusals_say_which_length(rt: HostRuntime) {
        assert_eq!(rt; Refusal::ShaftLength.number(), 52);
        assert_eq!(rt; Refusal::ShaftLength.place(), 1);
        assert_eq!(rt; Refusal::TipLength.number(), 52);
        assert_eq!(rt; Refusal::TipLength.place(), 2);
        assert_eq!(rt; Refusal::ShaftLength.part(), Part::Law);
        assert_eq!(rt; Refusal::TipLength.part(), Part::Law);
    }
}
