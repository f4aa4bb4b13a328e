ghost use Rattle.std.specs.Prelude.{◌≡◌, ℕ, cond, length, ℤ, nat_lt, slice_set};
ghost use Rattle.std.specs.List.{slice_get};
ghost use Rattle.interface.specs.Rows.{Row, zeros, plus, minus, times, share, reach};
ghost use Rattle.interface.specs.Tariffs.{Scale, LawfulScale, Answers, price, summable, multipliable, billable};

use crate::plant::Bill;

// A tariff prices bills as amounts of its own kind and orders them. What an amount stands for is a row of integers, one to
// each place, in thousandths. Any 64-bit number may stand at a place.
pub trait Tariff {
    // A plain record with no invariant.
    type Amount: Copy;

    // The number of places of an amount.
    const PLACES: usize;

    ghost PLACES: { ℕ };

    ghost scale: { Self → Scale };

    ghost row: { Self.Amount → Row };

    // PLACES, for who has a tariff at hand.
    fn place_count(&self) -> usize
        ensures { result ≡ (scale self.now).places }
    {
        Self::PLACES
    }

    fn zero(&self) -> Self::Amount
        ensures { row result ≡ zeros (scale self.now).places };

    // The price of a bill, absent exactly when the bill is outside the lawful ranges.
    fn price(&self, bill: Bill) -> Option<Self::Amount>
        ensures { Answers row result (billable bill) (price (scale self.now) bill) };

    // Whether a is at most b.
    fn at_most(&self, a: Self::Amount, b: Self::Amount) -> bool
        ensures { result ≡ (scale self.now).at_most (row a) (row b) };

    fn sum(&self, a: Self::Amount, b: Self::Amount) -> Option<Self::Amount>
        ensures { Answers row result (summable (row a) (row b)) (plus (row a) (row b)) };

    fn difference(&self, a: Self::Amount, b: Self::Amount) -> Option<Self::Amount>
        ensures { Answers row result (summable (row a) (row b)) (minus (row a) (row b)) };

    fn multiple(&self, factor: u32, a: Self::Amount) -> Option<Self::Amount>
        ensures { Answers row result (multipliable factor (row a)) (times factor (row a)) };

    // A ten-thousandth, rounded down at each place.
    fn share(&self, a: Self::Amount) -> Self::Amount
        ensures { row result ≡ share (row a) };

    // The largest absolute value among the places.
    fn reach(&self, a: Self::Amount) -> u64
        ensures { result ≡ reach (row a) };

    // Place i from 0, absent from PLACES on.
    fn place(&self, a: Self::Amount, i: usize) -> Option<i64>
        ensures { result ≡ slice_get (row a) i };

    // The amount with another number at place i, absent from PLACES on.
    fn with_place(&self, a: Self::Amount, i: usize, value: i64) -> Option<Self::Amount>
        ensures { Answers row result (nat_lt i (scale self.now).places) (slice_set (row a) i value) };

    ghost lawful: { (t : Self) → LawfulScale (scale t) };

    ghost places: { (t : Self) → (scale t).places ≡ PLACES };

    ghost fits: { (t : Self) (a : Self.Amount) → length (row a) ≡ (scale t).places };
}
