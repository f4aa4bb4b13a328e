// The values of a plan's lines, as they are read.
ghost use Rattle.std.specs.Prelude.{◌≡◌};
ghost use Rattle.std.specs.Option.{option_map};
ghost use Rattle.lines.specs.Fields.{fields as fields_of, further};
ghost use Rattle.plantext.specs.Values.{count_of, amount_of, entry_of, entry_rows};

use interface::limits::MOST_STATES;
use interface::tariff::Tariff;
use lines::cutting::Fields;
use lines::numbers::{number, signed};

// The largest portfolio that a plan can name.
pub const MOST_PORTFOLIO: u64 = u16::MAX as u64;

// A number of states.
pub(crate) fn read_count(value: &[u8]) -> Option<usize>
    ensures { result ≡ count_of value.now }
{
    number(value, MOST_STATES as u64)
        .filter(|count| *count > 0)
        .map(|count| count as usize)
}

// The amount whose places are the fields that are left.
fn read_places<T: Tariff>(tariff: &T, mut fields: Fields) -> Option<T::Amount>
    ensures { option_map T.Tariff.row result ≡ amount_of (T.scale tariff.now).places (further fields.entry.rest) }
{
    let mut amount = tariff.zero();
    // By number: a tariff is asked for its places, and there is no slice of them to go over.
    for i in 0..tariff.place_count() {
        let place = signed(fields.next()?)?;
        amount = tariff.with_place(amount, i, place)?;
    }
    fields.next().is_none().then_some(amount)
}

// An amount.
pub(crate) fn read_amount<T: Tariff>(tariff: &T, value: &[u8]) -> Option<T::Amount>
    ensures { option_map T.Tariff.row result ≡ amount_of (T.scale tariff.now).places (fields_of value.now) }
{
    read_places(tariff, Fields::new(value))
}

// The portfolio and the value of a state.
pub(crate) struct StateEntry<A> {
    pub(crate) portfolio: u16,
    pub(crate) value: A,
}

// The entry of this state.
pub(crate) fn read_entry<T: Tariff>(
    tariff: &T,
    state: usize,
    value: &[u8],
) -> Option<StateEntry<T::Amount>>
    ensures { option_map (entry_rows T.Tariff.row) result ≡ entry_of (T.scale tariff.now).places state (fields_of value.now) }
{
    let mut fields = Fields::new(value);
    let turn = fields.next()?;
    let portfolio = fields.next()?;
    number(turn, MOST_STATES as u64).filter(|turn| *turn == state as u64)?;
    let portfolio = number(portfolio, MOST_PORTFOLIO)? as u16;
    let value = read_places(tariff, fields)?;
    Some(StateEntry { portfolio, value })
}
