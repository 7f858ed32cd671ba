// A story: a list of calls told to a study, and its answers. The contract of `tell` is the law that every story obeys.
#![tactic(auto)]

ghost use Rattle.std.specs.Prelude.{◌≡◌};
ghost use Rattle.study.specs.Sites.{plain};
ghost use Rattle.study.specs.Views.{meaning};
ghost use Rattle.story.specs.Tales.{Performs, Tells};

use calls::{Answer, Call};
use friction::rule::FrictionRule;
use study::holder::Study;
use transfer::TransferLaw;

#[cfg(test)]
mod tests;

// One call.
pub fn perform<R: FrictionRule, L: TransferLaw>(study: &mut Study<R, L>, call: &Call) -> Answer
    ensures { Performs (meaning R.FrictionRule) study.old (plain call.now) result study.new }
{
    match *call {
        Call::Lay(layer) => study.lay(layer).into(),
        Call::Amend(amendment) => study.amend(amendment).into(),
        Call::Lift => study.lift().into(),
        Call::Drive(numbers) => study.drive(numbers).into(),
        Call::Judge(question) => study.judge(&question).into(),
    }
}

// Every call for whose answer there is a place, in order; how many they are. The places are the caller's, so that no memory is asked for
// and a call cannot go unanswered.
pub fn tell<R: FrictionRule, L: TransferLaw>(
    study: &mut Study<R, L>,
    calls: &[Call],
    answers: &mut [Answer],
) -> usize
    ensures { Tells (meaning R.FrictionRule) study.old calls.now answers.old result study.new answers.new }
{
    let n = calls.len().min(answers.len());
    // A zip of the calls with `answers.iter_mut()` was tried: nothing was known of what the loop wrote.
    for (i, call) in calls[..n].iter().enumerate() {
        answers[i] = perform(study, call);
    }
    n
}
