// The fields of a line.
ghost use Rattle.std.specs.Prelude.{◌≡◌, ◌≤◌, take, MatchOption, MatchResult};
ghost use Rattle.std.specs.Str.Parse.{digits_value};
ghost use Rattle.lines.specs.Fields.{Numeral, UpToSpace, NoNumber, Field, NoField, Reads, Malformed};

use terms::refusal::Refusal;

// So that a number fits u64 with room to spare.
const MOST_DIGITS: usize = 10;

// The number that the bytes before the first space write, and how many they are, if they are digits and not too many.
// They are gone over once: the library's `parse` takes text, and that bytes are text would be another walk.
fn number(text: &[u8]) -> Option<(u64, usize)>
    ensures { MatchOption result (NoNumber text.now) (λ p. UpToSpace text.now p.1 × Numeral (take p.1 text.now) × (p.0 ≡ digits_value 10 (take p.1 text.now))) }
{
    let mut number = 0;
    for (width, byte) in text.iter().enumerate() {
        if *byte == b' ' {
            return if width > 0 {
                Some((number, width))
            } else {
                None
            };
        }
        if width >= MOST_DIGITS || !byte.is_ascii_digit() {
            return None;
        }
        number = number * 10 + u64::from(*byte - b'0');
    }
    if text.is_empty() {
        None
    } else {
        Some((number, text.len()))
    }
}

// The number of the field that `text` begins with, and what follows the field.
#[tactic(auto, using(crate::proofs::Shapes::unspaced))]
fn field(text: &[u8]) -> Option<(u64, &[u8])>
    ensures { MatchOption result (NoField text.now) (λ p. Field text.now p.0 p.1.now) }
{
    let rest = text.strip_prefix(b" ")?;
    let (number, width) = number(rest)?;
    Some((number, &rest[width..]))
}

// The numbers of the `N` fields that `text` is. No command has more than ten.
#[tactic(auto, using(crate::proofs::Onward::start, crate::proofs::Onward::surplus, crate::proofs::Onward::finished, crate::proofs::Onward::broken))]
pub(super) fn fields<const N: usize>(text: &[u8]) -> Result<[u64; N], Refusal>
    requires { N ≤ 10 }
    ensures { MatchResult result (λ numbers. Reads text.now N numbers) (λ e. Malformed text.now N 1 e) }
{
    let mut numbers = [0; N];
    let mut rest = text;
    for (i, number) in numbers.iter_mut().enumerate() {
        let refusal = Refusal::MalformedField {
            field: i as u64 + 1,
        };
        (*number, rest) = field(rest).ok_or(refusal)?;
    }
    if !rest.is_empty() {
        return Err(Refusal::MalformedField {
            field: N as u64 + 1,
        });
    }
    Ok(numbers)
}
