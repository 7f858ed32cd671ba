// Judging a pile: its resistance, its design capacity, and whether that carries the load.
ghost use Rattle.std.specs.Prelude.{◌≡◌, ◌≤◌, None};
ghost use Rattle.terms.specs.Chains.{Answers, or_else, unless};
ghost use Rattle.ground.specs.Table.{strata};
ghost use Rattle.pile.specs.Driven.{numbers_of};
ghost use Rattle.pile.specs.Shaft.{max_resistance};
ghost use Rattle.resistance.specs.Judging.{load_flaw, question_flaw, site_refusal, judgement_of, JudgedRightly};

use crate::fetching::fetch;
use calls::{Judgement, Question};
use friction::rule::FrictionRule;
use ground::table::Ground;
use pile::driven::Pile;
use pile::footing::Footing;
use terms::limits::{FACTOR, LOAD};
use terms::refusal::Refusal;

// Factors are in thousandths.
const THOUSAND: u64 = 1_000;

// µN in a kN
pub const MICRONEWTONS: u64 = 1_000_000_000;

// A load in kN, as every question has it.
pub fn check_load(load: u64) -> Result<(), Refusal>
    ensures { result ≡ unless (load_flaw load) }
{
    LOAD.admit(load, Refusal::QuestionNumber { field: 1 })
}

// Refused for the first number of a question outside its limits.
pub fn check_question(question: &Question) -> Result<(), Refusal>
    ensures { result ≡ unless (question_flaw question.now) }
{
    check_load(question.load)?;
    FACTOR.admit(question.model_factor, Refusal::QuestionNumber { field: 2 })?;
    FACTOR.admit(
        question.resistance_factor,
        Refusal::QuestionNumber { field: 3 },
    )
}

// Capacity and verdict of a resistance.
fn judgement(resistance: u64, question: &Question) -> Judgement
    requires { (resistance ≤ max_resistance) × (question_flaw question.now ≡ None) }
    ensures { result ≡ judgement_of resistance question.now }
{
    let by_model = resistance * THOUSAND / question.model_factor;
    let capacity = by_model * THOUSAND / question.resistance_factor;
    Judgement {
        resistance,
        capacity,
        carries: question.load * MICRONEWTONS <= capacity,
    }
}

// R, capacity and verdict of a pile in a ground, and no footing, since a ground too shallow is one of its refusals; refused, in this order, for a number of the question, for the ground's depth, and for a layer of which the rule says nothing.
pub fn judge<R: FrictionRule>(
    rule: &R,
    ground: &Ground,
    pile: &Pile,
    question: &Question,
) -> Result<Judgement, Refusal>
    ensures { Answers (or_else (question_flaw question.now) (site_refusal (R.FrictionRule.answer rule.now) (strata ground.now) (numbers_of pile.now))) (JudgedRightly R.FrictionRule.TOLERANCE (R.FrictionRule.fraction rule.now) (R.FrictionRule.answer rule.now) (strata ground.now) (numbers_of pile.now) question.now) result }
{
    check_question(question)?;
    let footing = Footing::new(ground, pile)?;
    let frictions = fetch(rule, ground, pile)?;
    Ok(judgement(footing.resistance(&frictions), question))
}
