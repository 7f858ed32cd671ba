// A line as a call.
ghost use Rattle.std.specs.Prelude.{◌≡◌, MatchResult};
ghost use Rattle.lines.specs.Letters.{arity};
ghost use Rattle.lines.specs.Fields.{Fields, Malformed};
ghost use Rattle.lines.specs.Grammar.{letter_of, numbers_of, Says, Misread};
ghost use Rattle.lines.specs.Meaning.{OneMeaning};

use crate::fields::fields;
use crate::letter::Letter;
use calls::{Call, Question};
use ground::layer::{Amendment, Layer};
use pile::numbers::PileNumbers;
use terms::refusal::Refusal;

// Bytes, without the line feed.
const LONGEST_LINE: usize = 120;

// The call of that letter whose numbers are the fields that `text` is.
fn call_of(letter: Letter, text: &[u8]) -> Result<Call, Refusal>
    ensures { MatchResult result (λ call. (letter_of call ≡ letter) × Fields text.now (numbers_of call)) (λ e. Malformed text.now (arity letter) 1 e) }
{
    match letter {
        Letter::Lay => Ok(Call::Lay(Layer::from(fields(text)?))),
        Letter::Amend => Ok(Call::Amend(Amendment::from(fields(text)?))),
        Letter::Lift => {
            fields::<0>(text)?;
            Ok(Call::Lift)
        }
        Letter::Drive => Ok(Call::Drive(PileNumbers::from(fields(text)?))),
        Letter::Judge => Ok(Call::Judge(Question::from(fields(text)?))),
    }
}

// The call that the line says, or why it says none; no line has two meanings.
#[tactic(auto, using(crate::proofs::Once::one_meaning))]
pub fn parse_line(line: &[u8]) -> Result<Call, Refusal>
    ensures reads { MatchResult result (λ call. Says line.now call) (λ e. Misread line.now e) }
    ensures once { OneMeaning line.now }
{
    let (first, fields) = line.split_first().ok_or(Refusal::UnknownLetter)?;
    let letter = Letter::try_from(*first).map_err(|_| Refusal::UnknownLetter)?;
    if line.len() > LONGEST_LINE {
        return Err(Refusal::LongLine);
    }
    call_of(letter, fields)
}

#[cfg(test)]
mod tests {
    use super::*;
    use std::process::Abort;

    fn says(rt: &impl Abort, line: &[u8], call: Call) {
        assert_eq!(rt; parse_line(line), Ok(call));
    }

    fn misread(rt: &impl Abort, line: &[u8], refusal: Refusal) {
        assert_eq!(rt; parse_line(line), Err(refusal));
    }

    #[test]
    fn ground_calls(rt: HostRuntime) {
        let layer = Layer {
            soil: 1,
            thickness: 2_000,
            pressure: 300,
            modulus: 4_000,
            ceiling: 50,
        };
        says(&rt, b"L 1 2000 300 4000 50", Call::Lay(layer));
        let amend = Call::Amend(Amendment {
            index: 0,
            pressure: 9_999_999_999,
            modulus: 7,
        });
        says(&rt, b"A 0 9999999999 0000000007", amend);
        says(&rt, b"U", Call::Lift);
    }

    #[test]
    fn pile_calls(rt: HostRuntime) {
        let numbers = PileNumbers {
            category: 1,
            mark: 0,
            diameter: 500,
            perimeter: 1_571,
            tip_area: 196_350,
            section: 190_000,
            modulus: 30_000,
            length: 12_000,
            tip_factor: 110,
            step: 250,
        };
        says(
            &rt,
            b"P 1 0 500 1571 196350 190000 30000 12000 110 250",
            Call::Drive(numbers),
        );
        let question = Question {
            load: 1_000,
            model_factor: 1_150,
            resistance_factor: 1_100,
        };
        says(&rt, b"J 1000 1150 1100", Call::Judge(question));
    }

    #[test]
    fn letter_then_length(rt: HostRuntime) {
        let unknown: [&[u8]; 5] = [b"", b" U", b"u", b"\xcc 1", &[b'S'; 121]];
        for line in unknown {
            misread(&rt, line, Refusal::UnknownLetter);
        }
        misread(&rt, &[b'U'; 121], Refusal::LongLine);
        misread(&rt, &[b'U'; 120], Refusal::MalformedField { field: 1 });
    }

    // Each line with the first field that is missing, malformed or surplus.
    const MALFORMED: [(&[u8], u64); 13] = [
        (b"J1 2 3", 1),
        (b"J  1 2 3", 1),
        (b"J 1\t2 3", 1),
        (b"J 1 12345678901 3", 2),
        (b"J 1 \xb2 3", 2),
        (b"J 1 2 3\r", 3),
        (b"J", 1),
        (b"J 1 2", 3),
        (b"J 1 2 ", 3),
        (b"J 1 2 3 ", 4),
        (b"J 1 2 3 4", 4),
        (b"P 1 2 3 4 5 6 7 8 9 10 11", 11),
        (b"U 1", 1),
    ];

    #[test]
    fn malformed_fields(rt: HostRuntime) {
        for (line, field) in MALFORMED {
            misread(&rt, line, Refusal::MalformedField { field });
        }
    }
}
