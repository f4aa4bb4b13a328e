// The rows of hundredths.
ghost use Rattle.std.specs.Prelude.{◌≡◌, ◌≤◌, length};
ghost use Rattle.pair.specs.Limits.{most_grades};
ghost use Rattle.pairtext.specs.Rows.{adds_up, row_of};

use pair::limits::{HUNDRED, MOST_GRADES};
use pair::ranges::all_zero;
use reading::values::number_list;

// Whether a row adds up to 100, and has zeros before index `own`. The pair's own test is of a unit's row, and this one
// is not put into its unit yet. It takes a slice: that the sum fits is found from a bound of the length, and not for an array.
fn adds_up(row: &[u32], own: usize) -> bool
    requires { (length row.now ≤ most_grades) × (own ≤ length row.now) }
    ensures { result ≡ adds_up own row.now }
{
    let total: u64 = row.iter().map(|h| u64::from(*h)).sum();
    total == u64::from(HUNDRED) && all_zero(&row[..own])
}

// The row that `value` lists, with zeros behind its `grades` numbers; absent where it is no such list, does not add
// up to 100, or has another number than 0 before index `own`. That the grades are few is asked, as the reader knows it of the
// unit opened last; a struct with that fact would be no plainer, since the unit's record is a plain one of the crate below.
pub fn row_of(value: &[u8], grades: usize, own: usize) -> Option<[u32; MOST_GRADES]>
    requires { (grades ≤ most_grades) × (own ≤ most_grades) }
    ensures { result ≡ row_of value.now grades own }
{
    let row = number_list(value, HUNDRED, grades)?;
    adds_up(&row, own).then_some(row)
}
