// What an acceptance carries.
ghost use Rattle.std.specs.Prelude.{◌≡◌, map, length};
ghost use Rattle.std.specs.List.{slice_get};
ghost use Rattle.std.specs.Option.{option_map};
ghost use Rattle.lookahead.specs.Best.{first_best};
ghost use Rattle.lookahead.specs.Choices.{pick, good};

use interface::tariff::Tariff;
use lookahead::best::{Aim, Choice};
use lookahead::table::ValueTable;

/// The claims of the certificate as they came in, its first greatest value and its first least.
#[derive(Clone, Copy, PartialEq, Eq, Debug)]
pub struct Finding<A> {
    /// The claim that no feasible portfolio gains less.
    pub low: A,
    /// The claim that the policy's portfolios gain no more.
    pub high: A,
    /// The greatest value of the table, the first among equals.
    pub top: A,
    /// The least value of the table, the first among equals.
    pub bottom: A,
}

// The first best value of a table.
pub(crate) fn extreme<T: Tariff>(
    aim: Aim,
    tariff: &T,
    table: &ValueTable<T::Amount>,
) -> Option<Choice<T::Amount>>
    ensures { option_map (pick T.Tariff.row) result
        ≡ first_best (good aim (T.scale tariff.now))
        (slice_get (map T.Tariff.row table.now.amounts.now)) (length table.now.amounts.now) }
{
    aim.first_best(tariff, table.amounts.len(), |s| table.value(s))
}
