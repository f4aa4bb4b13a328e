// Whether the numbers of a pair are in range.
ghost use Rattle.std.specs.Prelude.{◌≡◌, ◌≤◌, length, sum, Decides, MatchBool};
ghost use Rattle.pair.specs.Limits.{most_grades};
ghost use Rattle.pair.specs.Pairs.{LawfulNumbers, Renewable, Unrenewable};
ghost use Rattle.pair.specs.Units.{all_zero, row_test, rows_test, LawfulUnit};

use crate::limits::{HUNDRED, LEAST_GRADES, MOST_CHARGE, MOST_DARK, MOST_GRADES, MOST_THRESHOLD};
use crate::numbers::{PairNumbers, UnitNumbers};
use crate::units::Rows;

// The hundredths of a row, added up. It asks for a bound of the length, so that the sum fits, and no public function may ask:
// so the reader of a pair's text has its own test of a row.
fn total(row: &[u32]) -> u64
    requires { length row.now ≤ most_grades }
    ensures { result ≡ sum row.now }
{
    row.iter().map(|h| u64::from(*h)).sum()
}

// Whether there is nothing but zeros.
pub fn all_zero(hundredths: &[u32]) -> bool
    ensures { result ≡ all_zero hundredths.now }
{
    hundredths.iter().all(|h| *h == 0)
}

impl UnitNumbers {
    // Whether the row of a grade adds up and leads to no better grade. That the grades are few is asked here and of rows_lawful:
    // it is the first test of in_range, and a struct that holds it would be no plainer, being made for these two calls alone.
    fn row_lawful(&self, grade: usize) -> bool
        requires { (1 ≤ grade) × (grade ≤ most_grades) × (self.now.grades ≤ most_grades) }
        ensures { result ≡ row_test self.now grade }
    {
        let row = &self.rows[grade - 1];
        total(&row[..self.grades]) == u64::from(HUNDRED) && all_zero(&row[..grade - 1])
    }

    fn rows_lawful(&self) -> bool
        requires { self.now.grades ≤ most_grades }
        ensures { result ≡ rows_test self.now }
    {
        // By grade and not over the rows: a row's grade says how many of its entries have to be 0, and the failed grade's row
        // is ignored, so a chain over the rows would number and cut them first.
        (1..self.grades).all(|grade| self.row_lawful(grade))
    }

    pub fn in_range(&self) -> bool
        ensures { Decides result (LawfulUnit self.now) }
    {
        if !(LEAST_GRADES..=MOST_GRADES).contains(&self.grades) {
            return false;
        }
        if self.planned > MOST_CHARGE || self.forced > MOST_CHARGE || self.dark > MOST_DARK {
            return false;
        }
        self.rows_lawful()
    }
}

impl PairNumbers {
    pub fn in_range(&self) -> bool
        ensures { Decides result (LawfulNumbers self.now) }
    {
        if self.threshold > MOST_THRESHOLD
            || self.setup > MOST_CHARGE
            || self.inspect > MOST_CHARGE
        {
            return false;
        }
        self.one.in_range() && self.two.in_range()
    }

    // Whether the renewal of both units reaches the threshold: it does so in every state or in none.
    pub(crate) fn renewable(&self) -> bool
        requires { LawfulNumbers self.now }
        ensures { MatchBool result (Renewable self.now) (Unrenewable self.now) }
    {
        let renewed = Rows {
            one: self.one.first_row(),
            two: self.two.first_row(),
        };
        self.threshold <= renewed.survival()
    }
}
