// The kind of plant that a text describes.
ghost use Rattle.std.specs.Prelude.{◌≡◌};
ghost use Rattle.request.specs.Requests.{kind_named, read_kind};
ghost use Rattle.request.specs.Writing.{ReadsKind};

use crate::due::read_due;
use lines::reading::Lines;
use reading::keys::Key;
use reading::rules::{ReadRefusal, Rule};

// The kinds that a text can name.
#[derive(Clone, Copy, PartialEq, Eq, Debug)]
pub enum Kind {
    Chain,
    Pair,
}

// The kind with this name.
impl TryFrom<&[u8]> for Kind {
    type Error = Rule;

    ghost try_from_gives = { λ word r. r ≡ kind_named word.now };

    fn try_from(word: &[u8]) -> Result<Kind, Rule> {
        match word {
            b"chain" => Ok(Kind::Chain),
            b"pair" => Ok(Kind::Pair),
            _ => Err(Rule::Unexpected),
        }
    }
}

// The kind that the first line of a text names. The line is only looked at: the reader of that kind reads it again.
pub fn kind_of(text: &[u8]) -> Result<Kind, ReadRefusal>
    ensures value { result ≡ read_kind text.now }
    ensures law { ReadsKind text.now result }
{
    read_due(Lines::new(text).next_line(), Key::Kind, Kind::try_from)
}
