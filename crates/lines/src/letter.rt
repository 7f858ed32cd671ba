// The letter that a line begins with and that its answer repeats.
ghost use Rattle.std.specs.Prelude.{◌≡◌, MatchOption};
ghost use Rattle.lines.specs.Letters.{code, Begins, IsLetter};

#[derive(Clone, Copy, PartialEq, Eq, Debug)]
pub enum Letter {
    Lay,
    Amend,
    Lift,
    Drive,
    Judge,
}

// A byte that is the letter of no command.
#[derive(Clone, Copy, PartialEq, Eq, Debug)]
pub struct UnknownByte(pub u8);

impl From<Letter> for u8 {
    ghost from_gives = { λ letter byte. byte ≡ code letter };

    fn from(letter: Letter) -> u8 {
        match letter {
            Letter::Lay => b'L',
            Letter::Amend => b'A',
            Letter::Lift => b'U',
            Letter::Drive => b'P',
            Letter::Judge => b'J',
        }
    }
}

impl TryFrom<u8> for Letter {
    type Error = UnknownByte;

    ghost try_from_gives = { IsLetter };

    fn try_from(byte: u8) -> Result<Letter, UnknownByte> {
        match byte {
            b'L' => Ok(Letter::Lay),
            b'A' => Ok(Letter::Amend),
            b'U' => Ok(Letter::Lift),
            b'P' => Ok(Letter::Drive),
            b'J' => Ok(Letter::Judge),
            _ => Err(UnknownByte(byte)),
        }
    }
}

// The command that the line begins with, if it begins with one.
pub fn letter_of(line: &[u8]) -> Option<Letter>
    ensures { MatchOption result ((l : Letter) → Begins line.now l → ⊥) (λ l. Begins line.now l) }
{
    let first = line.first()?;
    Letter::try_from(*first).ok()
}

#[cfg(test)]
mod tests {
    use super::*;

    #[test]
    fn each_letter(rt: HostRuntime) {
        for byte in *b"LAUPJ" {
            let letter = Letter::try_from(byte);
            assert_eq!(rt; letter.map(u8::from), Ok(byte));
        }
        assert_eq!(rt; Letter::try_from(b'l'), Err(UnknownByte(b'l')));
    }

    #[test]
    fn first_byte_alone(rt: HostRuntime) {
        assert_eq!(rt; letter_of(b"UJ"), Some(Letter::Lift));
        assert_eq!(rt; letter_of(b" U"), None);
        assert_eq!(rt; letter_of(b""), None);
    }
}
