// The line that is due.
ghost use Rattle.std.specs.Prelude.{◌≡◌};
ghost use Rattle.lines.specs.Line.{said};
ghost use Rattle.reading.specs.Keys.{name_of};
ghost use Rattle.request.specs.Due.{ValueDue, ReadsDue};

use lines::reading::{Line, Read};
use reading::keys::Key;
use reading::rules::{ReadRefusal, Rule};

// The value of a line with this key.
fn value_due<'a>(line: Line<'a>, key: Key) -> Result<&'a [u8], Rule>
    ensures { ValueDue (name_of key) (said line.entry) result }
{
    match line {
        Line::Pair(name, value) if name == key.name() => Ok(value),
        Line::Pair(_, _) => Err(Rule::Unexpected),
        Line::Fault(fault) => Err(Rule::from(fault)),
    }
}

// What `convert` makes of that value, or the refusal with the place of the line.
pub(crate) fn read_due<'a, T, F: FnOnce(&'a [u8]) -> Result<T, Rule>>(
    read: Read<'a>,
    key: Key,
    convert: F,
) -> Result<T, ReadRefusal>
    requires { F.IsAlwaysCallable convert }
    ensures { ReadsDue (name_of key) (said read.entry.line) read.entry.place (F.post convert) result }
{
    let Read { line, place } = read;
    value_due(line, key)
        .and_then(convert)
        .map_err(|rule| ReadRefusal { rule, line: place })
}
