// The tariff line.
ghost use Rattle.std.specs.Prelude.{◌≡◌, ◌+◌};
ghost use Rattle.lines.specs.Line.{line_at, rest_at, taken};
ghost use Rattle.request.specs.Writing.{ReadsTariff};
ghost use Rattle.request.specs.Requests.{tariff_of, priced_by, air_first_by, read_tariff};
ghost use Rattle.lines.specs.Fields.{further};

use crate::due::read_due;
use lines::cutting::Fields;
use lines::reading::Lines;
use reading::keys::Key;
use reading::rules::{ReadRefusal, Rule};
use reading::values::number_between;
use tariffs::priced::MOST_RATE;

// The tariff that a request names.
#[derive(Clone, Copy, PartialEq, Eq, Debug)]
pub enum TariffChoice {
    Priced(u32),
    AirFirst,
}

// A rate, alone behind its word.
fn priced_by(mut fields: Fields) -> Result<TariffChoice, Rule>
    ensures { result ≡ priced_by (further fields.entry.rest) }
{
    let rate = fields.next().ok_or(Rule::OutOfRange)?;
    if fields.next().is_some() {
        return Err(Rule::OutOfRange);
    }
    number_between(rate, 0, MOST_RATE)
        .map(TariffChoice::Priced)
        .ok_or(Rule::OutOfRange)
}

fn air_first_by(mut fields: Fields) -> Result<TariffChoice, Rule>
    ensures { result ≡ air_first_by (further fields.entry.rest) }
{
    fields
        .next()
        .is_none()
        .then_some(TariffChoice::AirFirst)
        .ok_or(Rule::OutOfRange)
}

// The word of a tariff, and what suits it.
impl TryFrom<&[u8]> for TariffChoice {
    type Error = Rule;

    ghost try_from_gives = { λ value r. r ≡ tariff_of value.now };

    fn try_from(value: &[u8]) -> Result<TariffChoice, Rule> {
        let mut fields = Fields::new(value);
        match fields.next() {
            Some(b"priced") => priced_by(fields),
            Some(b"airfirst") => air_first_by(fields),
            _ => Err(Rule::Unexpected),
        }
    }
}

// Reads the tariff line.
pub fn read_tariff(lines: &mut Lines) -> Result<TariffChoice, ReadRefusal>
    ensures value { result ≡ read_tariff lines.old.rest.now lines.old.place }
    ensures rest { lines.new.rest.now ≡ rest_at lines.old.rest.now }
    ensures count { lines.new.place ≡ lines.old.place + taken (line_at lines.old.rest.now) }
    ensures law { ReadsTariff lines.old.rest.now result lines.new.rest.now }
{
    read_due(lines.next_line(), Key::Tariff, TariffChoice::try_from)
}
