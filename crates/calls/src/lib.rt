// What is said to a study and what it answers, as plain data.
#![tactic(auto)]

ghost use Rattle.std.specs.Prelude.{◌≡◌, [], ◌∷◌, MatchResult};
ghost use Rattle.calls.specs.declared.Answer.TheVariants.{Done, Refused, Judged};

use ground::layer::{Amendment, Layer};
use pile::numbers::PileNumbers;
use terms::refusal::Refusal;

#[cfg(test)]
mod tests;

// What a judging asks: the design load in kN, the model factor and the resistance factor in thousandths.
#[derive(Clone, Copy, PartialEq, Eq, Debug)]
pub struct Question {
    pub load: u64,
    pub model_factor: u64,
    pub resistance_factor: u64,
}

// In the order of the fields.
impl From<[u64; 3]> for Question {
    ghost from_gives = { λ numbers question. numbers ≡ question.load ∷ question.model_factor ∷ question.resistance_factor ∷ [] };

    fn from(numbers: [u64; 3]) -> Question {
        let [load, model_factor, resistance_factor] = numbers;
        Question {
            load,
            model_factor,
            resistance_factor,
        }
    }
}

// What a judging answers: resistance R and design capacity in µN, and whether the capacity carries the load.
#[derive(Clone, Copy, PartialEq, Eq, Debug)]
pub struct Judgement {
    pub resistance: u64,
    pub capacity: u64,
    pub carries: bool,
}

// Two whole displacements in nm, the lower and the upper end of a bracket.
#[derive(Clone, Copy, PartialEq, Eq, Debug)]
pub struct Bracket {
    pub lower: u64,
    pub upper: u64,
}

// What a settling answers: the displacement brackets of the pile's tip and of its head.
#[derive(Clone, Copy, PartialEq, Eq, Debug)]
pub struct Settlement {
    pub tip: Bracket,
    pub head: Bracket,
}

// A call on a study.
#[derive(Clone, Copy, PartialEq, Eq, Debug)]
pub enum Call {
    // One more layer below.
    Lay(Layer),
    // A new pressure and modulus for the layer of that index.
    Amend(Amendment),
    // The lowest layer removed.
    Lift,
    // The pile set.
    Drive(PileNumbers),
    // Resistance, capacity and verdict asked; changes nothing.
    Judge(Question),
}

// One of three lines of a sheet. A `Result` would nest what was granted, and a `None` in it would not say that a change was made.
#[derive(Clone, Copy, PartialEq, Eq, Debug)]
pub enum Answer {
    // A change was made.
    Done,
    // Nothing was changed.
    Refused(Refusal),
    Judged(Judgement),
}

impl From<()> for Answer {
    ghost from_gives = { λ _ answer. answer ≡ Done };

    fn from(_done: ()) -> Answer {
        Answer::Done
    }
}

impl From<Judgement> for Answer {
    ghost from_gives = { λ judgement answer. answer ≡ Judged judgement };

    fn from(judgement: Judgement) -> Answer {
        Answer::Judged(judgement)
    }
}

// What a call came to: what it granted, or why it was refused.
impl<T: Into<Answer>> From<Result<T, Refusal>> for Answer {
    ghost from_gives = { λ outcome answer. MatchResult outcome (λ granted. T.converts granted answer) (λ refusal. answer ≡ Refused refusal) };

    fn from(outcome: Result<T, Refusal>) -> Answer {
        match outcome {
            Ok(granted) => granted.into(),
            Err(refusal) => Answer::Refused(refusal),
        }
    }
}
