// Making the shaft of a pile in a ground.
ghost use Rattle.std.specs.Prelude.{◌≡◌, ◌≤◌, length, take};
ghost use Rattle.terms.specs.Limits.{max_layers};
ghost use Rattle.terms.specs.Chains.{Answers};
ghost use Rattle.ground.specs.Table.{strata};
ghost use Rattle.pile.specs.Driven.{numbers_of};
ghost use Rattle.pile.specs.FrictionList.{friction_list};
ghost use Rattle.pile.specs.Footing.{layers_under, numbers_on};
ghost use Rattle.pile.specs.Shaft.{parts_above};
ghost use Rattle.shaft.specs.Room.{Body, Contact};
ghost use Rattle.shaft.specs.Attached.{attached, parts_up, body_on, strain_refusal, shaft_refusal};
ghost use Rattle.shaft.specs.Standing.{StandsOn};

use crate::held::Shaft;
use arrayvec::ArrayVec;
use column::{Part, PileBody};
use ground::table::Ground;
use pile::driven::Pile;
use pile::footing::Footing;
use pile::frictions::Frictions;
use pile::parts::Parts;
use std::alloc::AllocError;
use terms::limits::MAX_LAYERS;
use terms::refusal::Refusal;

// The most that a mm of the pile may shorten, nm.
const MOST_STRAIN: u64 = 10_000;

// The parts above the tip that have a friction, the uppermost first.
fn attach(footing: &Footing, frictions: &Frictions) -> ArrayVec<Part, MAX_LAYERS>
    ensures { result.items ≡ attached (parts_above (numbers_on footing.now).length (layers_under footing.now)) (friction_list frictions.now) }
{
    let mut parts = ArrayVec::new();
    let depth = footing.numbers().length;
    for (part, friction) in Parts::above(depth, footing.layers()).zip(frictions.values()) {
        parts.push(Part {
            height: part.height,
            soil: part.layer.soil,
            modulus: part.layer.modulus,
            friction: *friction,
        });
    }
    parts
}

// The same, the lowest first.
fn attach_up(footing: &Footing, frictions: &Frictions) -> ArrayVec<Part, MAX_LAYERS>
    ensures { result.items ≡ parts_up (layers_under footing.now) (numbers_on footing.now) (friction_list frictions.now) }
{
    let mut parts = attach(footing, frictions);
    parts.as_mut_slice().reverse();
    parts
}

// The same as an array, and how many of it count.
fn laid_out(parts: &ArrayVec<Part, MAX_LAYERS>) -> ([Part; MAX_LAYERS], usize)
    ensures whole { length result.0 ≡ max_layers }
    ensures few { result.1 ≤ max_layers }
    ensures value { take result.1 result.0 ≡ parts.now.items }
{
    let count = parts.len();
    let mut array = [Part::default(); MAX_LAYERS];
    array[..count].copy_from_slice(parts.as_slice());
    (array, count)
}

// The body of the pile on the layer that bears it.
fn body_on(footing: &Footing) -> PileBody
    ensures value { result ≡ body_on (layers_under footing.now) (numbers_on footing.now) }
    ensures bodied { Body result }
    ensures borne { Contact result.tip_soil result.tip_modulus result.tip_resistance }
{
    let numbers = footing.numbers();
    let layer = footing.layers()[footing.bearing().index as usize];
    PileBody {
        tip_area: numbers.tip_area,
        perimeter: numbers.perimeter,
        stiffness: numbers.modulus * numbers.section,
        diameter: numbers.diameter,
        tip_soil: layer.soil,
        tip_modulus: layer.modulus,
        tip_resistance: footing.tip_resistance(),
    }
}

impl Shaft {
    // The shaft of a footing, over its frictions; refused where the resistance overstrains the pile.
    pub fn on(footing: &Footing, frictions: &Frictions) -> Result<Shaft, Refusal>
        ensures { Answers (strain_refusal (layers_under footing.now) (numbers_on footing.now) (friction_list frictions.now)) (StandsOn (layers_under footing.now) (numbers_on footing.now) (friction_list frictions.now)) result }
    {
        let body = body_on(footing);
        if footing.resistance(frictions) > MOST_STRAIN * body.stiffness {
            return Err(Refusal::OverstrainedPile);
        }
        let numbers = footing.numbers();
        let (parts, count) = laid_out(&attach_up(footing, frictions));
        Ok(Shaft {
            body,
            step: numbers.step,
            parts,
            count,
        })
    }

    // The shaft of any pile in any ground, over any frictions; refused where the ground ends above the averaging's, or the resistance overstrains
    // the pile.
    pub fn new(ground: &Ground, pile: &Pile, frictions: &Frictions) -> Result<Shaft, Refusal>
        ensures { Answers (shaft_refusal (strata ground.now) (numbers_of pile.now) (friction_list frictions.now)) (StandsOn (strata ground.now) (numbers_of pile.now) (friction_list frictions.now)) result }
    {
        Shaft::on(&Footing::new(ground, pile)?, frictions)
    }
}

// By hand, so that its promise can be read.
impl Clone for Shaft {
    ghost is_clone = { λ s t. t ≡ s };

    ghost is_infallible = { λ _. Unit {0} };

    fn clone(&self) -> Result<Shaft, AllocError> {
        Ok(*self)
    }
}
