// An answer as a line.
ghost use Rattle.std.specs.Prelude.{◌≡◌, ◌+◌, ◌≤◌, true, ◌++◌, length, is_ok, if◌then◌else◌, vec_len, vec_capacity, OnOk};
ghost use Rattle.calls.specs.declared.Answer.TheVariants.{Refused, Judged};
ghost use Rattle.lines.specs.Print.{letter_byte, verdict, answer_words, answer_text, longest_answer};

use crate::letter::Letter;
use arrayvec::ArrayString;
use calls::{Answer, Judgement};
use itoa::Buffer;
use std::alloc::AllocError;
use terms::refusal::Refusal;

// Bytes: two numbers of 20 digits, verdict of 3 and two spaces.
const LONGEST_WORDS: usize = 45;

// With letter, space and line feed.
pub const LONGEST_ANSWER: usize = 48;

// Filled piece by piece: `write!` does not promise to succeed where there is room.
type Words = ArrayString<LONGEST_WORDS>;

// `E`, number and place.
fn refusal_words(refusal: Refusal) -> Words
    ensures { result.bytes ≡ answer_words (Refused refusal) }
{
    let mut words = Words::new();
    words.push_str("E ");
    words.push_str(Buffer::new().format(refusal.number()));
    words.push_str(" ");
    words.push_str(Buffer::new().format(refusal.place()));
    words
}

fn verdict(carries: bool) -> &'static str
    ensures words { result.now ≡ verdict carries }
    ensures short { length result.now ≤ 3 }
{
    if carries { "yes" } else { "no" }
}

// Resistance, capacity and verdict.
fn judgement_words(judgement: Judgement) -> Words
    ensures { result.bytes ≡ answer_words (Judged judgement) }
{
    let mut words = Words::new();
    words.push_str(Buffer::new().format(judgement.resistance));
    words.push_str(" ");
    words.push_str(Buffer::new().format(judgement.capacity));
    words.push_str(" ");
    words.push_str(verdict(judgement.carries));
    words
}

fn words_of(answer: &Answer) -> Words
    ensures { result.bytes ≡ answer_words answer.now }
{
    match answer {
        Answer::Done => {
            let mut words = Words::new();
            words.push_str("ok");
            words
        }
        Answer::Refused(refusal) => refusal_words(*refusal),
        Answer::Judged(judgement) => judgement_words(*judgement),
    }
}

fn letter_char(letter: Option<Letter>) -> char
    ensures { result ≡ letter_byte letter }
{
    char::from(letter.map_or(b'?', u8::from))
}

fn line_of(letter: Option<Letter>, answer: &Answer) -> ArrayString<LONGEST_ANSWER>
    ensures { result.bytes ≡ answer_text letter answer.now }
{
    let mut line = ArrayString::new();
    line.push(letter_char(letter));
    line.push_str(" ");
    line.push_str(words_of(answer).as_str());
    line.push_str("\n");
    line
}

// Adds the answer's line to `out`, whole or not at all.
pub fn write_answer(
    letter: Option<Letter>,
    answer: &Answer,
    out: &mut Vec<u8>,
) -> Result<(), AllocError>
    ensures items { out.new.items ≡ (if is_ok result then out.old.items ++ answer_text letter answer.now else out.old.items) }
    ensures len { vec_len out.new ≡ (if is_ok result then vec_len out.old + length (answer_text letter answer.now) else vec_len out.old) }
    ensures capacity { vec_capacity out.old ≤ vec_capacity out.new }
    ensures short { OnOk result (length (answer_text letter answer.now) ≤ longest_answer) }
    ensures succeeds { vec_len out.old + longest_answer ≤ vec_capacity out.old → is_ok result ≡ true }
{
    let line = line_of(letter, answer);
    out.extend_from_slice(line.as_str().as_bytes())
}

#[cfg(test)]
mod tests {
    use super::*;
    use std::test::Fail;

    #[test]
    fn each_answer(rt: HostRuntime) -> Result<(), Fail> {
        let mut out = Vec::new(rt.alloc());
        write_answer(Some(Letter::Lay), &Answer::Done, &mut out)?;
        let shallow = Answer::Refused(Refusal::ShallowGround { depth: 12_500 });
        write_answer(Some(Letter::Judge), &shallow, &mut out)?;
        write_answer(None, &Answer::Refused(Refusal::UnknownLetter), &mut out)?;
        assert_eq!(rt; out.as_slice(), b"L ok\nJ E 42 12500\n? E 1 0\n".as_slice());
        Ok(())
    }

    #[test]
    fn each_verdict(rt: HostRuntime) -> Result<(), Fail> {
        let mut out = Vec::new(rt.alloc());
        let carried = Judgement {
            resistance: 471_000_000_000,
            capacity: 372_332_015_810,
            carries: true,
        };
        write_answer(Some(Letter::Judge), &Answer::Judged(carried), &mut out)?;
        let widest = Judgement {
            resistance: u64::MAX,
            capacity: 0,
            carries: false,
        };
        write_answer(Some(Letter::Judge), &Answer::Judged(widest), &mut out)?;
        assert_eq!(rt;
            out.as_slice(),
            b"J 471000000000 372332015810 yes\nJ 18446744073709551615 0 no\n".as_slice()
        );
        Ok(())
    }
}
