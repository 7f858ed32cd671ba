// Transfer laws: how the soil resists a displacement of the pile, on its shaft and at its tip.
#![tactic(auto)]

ghost use Rattle.std.specs.Prelude.{◌≡◌, ◌≤◌};
ghost use Rattle.terms.specs.Limits.{nearest, unit_resistance_limits};
ghost use Rattle.transfer.specs.Curve.{Curve, Transfers};
ghost use Rattle.transfer.specs.Asked.{asked};

pub mod frank_zhao;
pub mod hyperbola;

// Where soil and pile meet.
#[derive(Clone, Copy, PartialEq, Eq, Debug)]
pub enum Place {
    Shaft,
    Tip,
}

// What meets there. Any numbers, the soil among them: a law takes the nearest inside.
#[derive(Clone, Copy, PartialEq, Eq, Debug)]
pub struct SoilContact {
    pub soil: u64,
    // Ménard modulus, kPa
    pub modulus: u64,
    // Unit resistance, Pa
    pub resistance: u64,
    // The pile's diameter, mm
    pub width: u64,
}

// A law is a curve for each place, defined for every displacement. It never refuses: a number outside its limits is taken as the nearest
// inside.
pub trait TransferLaw {
    ghost use Rattle.transfer.specs.declared.Place.{Place};

    ghost curve: { Self → Place → Curve };

    // The resistance at a displacement in nm, in Pa.
    fn mobilised(&self, place: Place, contact: SoilContact, displacement: u64) -> u64
        ensures value { result ≡ asked (curve self.now place) contact.soil contact.modulus contact.resistance contact.width displacement }
        ensures capped { result ≤ nearest unit_resistance_limits contact.resistance };

    ghost keeps: { (law : Self) (place : Place) → Transfers (curve law place) };
}
