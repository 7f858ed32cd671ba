// A worksheet: lines told to a study one after the other, and their answers as lines.
#![tactic(auto)]

ghost use Rattle.std.specs.Prelude.{◌≡◌, ◌+◌, ◌*◌, ◌<◌, ◌≤◌, true, [], ◌∷◌, length, is_ok, vec_len, vec_capacity, MatchOption, MatchResult};
ghost use Rattle.std.specs.Iterator.{at_most};
ghost use Rattle.lines.specs.Print.{longest_answer};
ghost use Rattle.study.specs.Views.{meaning};
ghost use Rattle.worksheet.specs.Cutting.{Line};
ghost use Rattle.worksheet.specs.Pieces.{PiecesJoin};
ghost use Rattle.worksheet.specs.Sheets.{AnswersLine, Works, Sheet, Halted};

use calls::Answer;
use friction::rule::FrictionRule;
use lines::letter::letter_of;
use lines::reading::parse_line;
use lines::writing::{LONGEST_ANSWER, write_answer};
use std::alloc::AllocError;
use story::perform;
use study::holder::Study;
use transfer::TransferLaw;

// The first line of a text, without its line feed, and what follows it.
fn split_line(text: &[u8]) -> (&[u8], &[u8])
    requires { 0 < length text.now }
    ensures line { Line text.now result.0.now result.1.now }
    ensures less { length result.1.now < length text.now }
{
    match text.iter().position(|b| *b == b'\n') {
        Some(n) => (&text[..n], &text[n + 1..]),
        None => (text, &[]),
    }
}

// The lines of a text from the first on, each without its line feed.
// A loop over `split_inclusive` was tried in its place: in a function with type parameters the check refuses its own statement of a
// sequence that holds a closure, and with a pointer to a function the code would be longer than this.
#[derive(Drop)]
struct Lines<'a>(&'a [u8]);

impl<'a> Iterator for Lines<'a> {
    type Item = &'a [u8];

    ghost next_gives = { λ s r t. MatchOption r ((length s.0.now ≡ 0) × (t ≡ s)) (λ line. Line s.0.now line.now t.0.now) };

    ghost remaining = { λ s. at_most (length s.0.now) };

    fn next(&mut self) -> Option<&'a [u8]> {
        if self.0.is_empty() {
            return None;
        }
        let (line, rest) = split_line(self.0);
        self.0 = rest;
        Some(line)
    }
}

// What the study answers to a line.
fn reply<R: FrictionRule, L: TransferLaw>(study: &mut Study<R, L>, line: &[u8]) -> Answer
    ensures { AnswersLine (meaning R.FrictionRule) study.old line.now result study.new }
{
    // `map_or_else` was tried: of a closure that changes the study, what it returned was not proved.
    match parse_line(line) {
        Ok(call) => perform(study, &call),
        Err(refusal) => Answer::Refused(refusal),
    }
}

// Tells one line, without its line feed, to the study and adds its answer to the output. Room for the answer is found first: without it nothing is changed.
pub fn work_line<R: FrictionRule, L: TransferLaw>(
    study: &mut Study<R, L>,
    line: &[u8],
    out: &mut Vec<u8>,
) -> Result<(), AllocError>
    ensures cases { MatchResult result (λ _. Works (meaning R.FrictionRule) study.old study.new (line.now ∷ []) out.old.items out.new.items) (λ _. (study.new ≡ study.old) × (out.new.items ≡ out.old.items)) }
    ensures len { vec_len out.new ≤ vec_len out.old + longest_answer }
    ensures capacity { vec_capacity out.old ≤ vec_capacity out.new }
    ensures succeeds { vec_len out.old + longest_answer ≤ vec_capacity out.old → is_ok result ≡ true }
{
    out.reserve(LONGEST_ANSWER)?;
    let answer = reply(study, line);
    write_answer(letter_of(line), &answer, out)
}

// Tells the lines of a text to the study, one after the other, and adds their answers to the output.
pub fn work_sheet<R: FrictionRule, L: TransferLaw>(
    study: &mut Study<R, L>,
    text: &[u8],
    out: &mut Vec<u8>,
) -> Result<(), AllocError>
    ensures cases { MatchResult result (λ _. Sheet (meaning R.FrictionRule) study.old study.new text.now out.old.items out.new.items) (λ _. Halted (meaning R.FrictionRule) study.old study.new text.now out.old.items out.new.items) }
    ensures succeeds { vec_len out.old + longest_answer * length text.now ≤ vec_capacity out.old → is_ok result ≡ true }
{
    for line in Lines(text) {
        work_line(study, line, out)?;
    }
    Ok(())
}

// That a sheet may be worked in pieces of whole lines, as they come.
pub fn pieces_join<R: FrictionRule, L: TransferLaw>(_study: &Study<R, L>)
    ensures { PiecesJoin {R = R} {L = L} (meaning R.FrictionRule) }
{}

#[cfg(test)]
mod tests {
    use super::*;
    use friction::pressuremeter::Pressuremeter;
    use std::test::Fail;
    use transfer::frank_zhao::FrankZhao;

    #[test]
    fn cuts_lines(rt: HostRuntime) -> Result<(), Fail> {
        let mut study = Study::new(rt.alloc(), Pressuremeter, FrankZhao)?;
        let mut out = Vec::new(rt.alloc());
        work_sheet(&mut study, b"", &mut out)?;
        work_sheet(&mut study, b"L 2 10000 2000 10000 50\n\nS 60\n", &mut out)?;
        work_sheet(&mut study, b"U 1\nA 0 300 4000", &mut out)?;
        assert_eq!(rt;
            out.as_slice(),
            b"L ok\n? E 1 0\n? E 1 0\nU E 2 1\nA ok\n".as_slice()
        );
        Ok(())
    }
}
