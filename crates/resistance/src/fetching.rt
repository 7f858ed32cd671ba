// The unit frictions of the layers that a shaft passes, fetched from a friction rule.
ghost use Rattle.std.specs.Prelude.{◌≡◌, ◌≤◌};
ghost use Rattle.terms.specs.Chains.{Answers};
ghost use Rattle.terms.specs.Limits.{ceiling_limits, friction_limits};
ghost use Rattle.ground.specs.Table.{strata};
ghost use Rattle.pile.specs.Driven.{numbers_of};
ghost use Rattle.pile.specs.FrictionList.{friction_list};
ghost use Rattle.pile.specs.Shaft.{parts_above};
ghost use Rattle.resistance.specs.UnitFriction.{friction_of};
ghost use Rattle.resistance.specs.Fetched.{unsaid_from, frictions_of};

use friction::rule::{Asking, FrictionRule};
use ground::layer::Layer;
use ground::table::Ground;
use pile::driven::Pile;
use pile::frictions::Frictions;
use pile::numbers::PileNumbers;
use terms::refusal::Refusal;

// Pa in a kPa
const KILO: u64 = 1_000;

// What the mark of a vibrodriven pile leaves of the friction, in tenths.
const VIBRODRIVEN_TENTHS: u64 = 7;

const TENTHS: u64 = 10;

// The friction of a layer from the rule's answer: at most its ceiling, and for a vibrodriven pile 7/10 of that, rounded down.
fn friction_of(numbers: &PileNumbers, layer: &Layer, answer: u64) -> u64
    requires { layer.now.ceiling ≤ ceiling_limits.most }
    ensures value { result ≡ friction_of numbers.now layer.now answer }
    ensures moderate { result ≤ friction_limits.most }
{
    let limited = answer.min(KILO * layer.ceiling);
    if numbers.is_vibrodriven() {
        VIBRODRIVEN_TENTHS * limited / TENTHS
    } else {
        limited
    }
}

// Of any ground and pile, deep enough or not. The rule is asked once for each layer whose top is above the tip, the uppermost first, and for none after one that it refuses.
pub fn fetch<R: FrictionRule>(rule: &R, ground: &Ground, pile: &Pile) -> Result<Frictions, Refusal>
    ensures { Answers (unsaid_from (R.FrictionRule.answer rule.now) (numbers_of pile.now) 0 (parts_above (numbers_of pile.now).length (strata ground.now))) (λ f. friction_list f ≡ frictions_of (R.FrictionRule.answer rule.now) (numbers_of pile.now) (parts_above (numbers_of pile.now).length (strata ground.now))) result }
{
    let numbers = pile.numbers();
    let mut frictions = Frictions::new();
    let mut left = numbers.length;
    for (index, layer) in ground.layers().iter().enumerate() {
        if left == 0 {
            break;
        }
        let index = index as u64;
        let asking = Asking {
            soil: layer.soil,
            category: numbers.category,
            pressure: layer.pressure,
        };
        let answer = rule.ask(asking).ok_or(Refusal::NoFriction { index })?;
        // It always fits: a ground has no more layers than a list has places, and no friction of a layer is too great.
        frictions
            .push(friction_of(&numbers, layer, answer))
            .unwrap();
        left = left.saturating_sub(layer.thickness);
    }
    Ok(frictions)
}
