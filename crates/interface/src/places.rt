// Arithmetic on the places of amounts, for whoever writes a tariff: an amount of N places is an array here, place by place.
ghost use Rattle.std.specs.Prelude.{◌≡◌, ℕ, ◌+◌, ◌*◌, ◌≤◌, true, false, leb, pos, ◌*ℤ◌, if◌then◌else◌, nat_le, nat_lt, unsigned_abs, length, slice_get, slice_set};
ghost use Rattle.std.specs.Option.{SomeIff};
ghost use Rattle.interface.specs.Limits.{most_reach, most_factor};
ghost use Rattle.interface.specs.Rows.{plus, minus, times, share, reach};
ghost use Rattle.interface.specs.Tariffs.{Answers, summable, multipliable};

use crate::limits::{MOST_FACTOR, MOST_REACH, WHOLE};
use std::array;

// Whether amounts of these reaches may be added or subtracted.
pub fn sum_within(a: u64, b: u64) -> bool
    ensures { result ≡ nat_le (a + b) most_reach }
{
    a <= MOST_REACH && b <= MOST_REACH - a
}

// Whether an amount of this reach may be multiplied by the factor; then so may each of its places.
pub fn multiple_within(factor: u32, reach: u64) -> bool
    ensures test { result ≡ (if leb factor most_factor then nat_le (factor * reach) most_reach else false) }
    ensures part { (k : ℕ) → k ≤ reach → result ≡ true → factor * k ≤ most_reach }
{
    factor <= MOST_FACTOR && u128::from(factor) * u128::from(reach) <= u128::from(MOST_REACH)
}

// The largest absolute value among the places.
pub fn reach<const N: usize>(a: [i64; N]) -> u64
    ensures { result ≡ reach a.entry }
{
    a.iter()
        .fold(0, |most, place| most.max(place.unsigned_abs()))
}

// The sum of two amounts, absent exactly when their reaches together exceed MOST_REACH.
// It and the difference are the same but for the operator. As one function that is lent the operator they would be no plainer:
// that no place overflows would have to be asked of any operator, where each shows it here of its own; of a checked operator,
// that it answers at each place. The array of its answers would be array::try_from_fn's, which asks that N places fit in memory.
pub fn sum<const N: usize>(a: [i64; N], b: [i64; N]) -> Option<[i64; N]>
    ensures { Answers (λ u. u) result (summable a.entry b.entry) (plus a.entry b.entry) }
{
    if !sum_within(reach(a), reach(b)) {
        return None;
    }
    // As slices: over captured arrays of N places the check does not find what the closure answers.
    let (a, b) = (a.as_slice(), b.as_slice());
    Some(array::from_fn(|i| a[i] + b[i]))
}

// The difference of two amounts, absent as their sum is.
pub fn difference<const N: usize>(a: [i64; N], b: [i64; N]) -> Option<[i64; N]>
    ensures { Answers (λ u. u) result (summable a.entry b.entry) (minus a.entry b.entry) }
{
    if !sum_within(reach(a), reach(b)) {
        return None;
    }
    let (a, b) = (a.as_slice(), b.as_slice());
    Some(array::from_fn(|i| a[i] - b[i]))
}

// A multiple of a place, absent exactly when it would exceed MOST_REACH.
pub fn multiply(factor: u32, a: i64) -> Option<i64>
    ensures { SomeIff result (factor * unsigned_abs a ≤ most_reach) (pos factor *ℤ a) }
{
    let size = u128::from(factor) * u128::from(a.unsigned_abs());
    if size > u128::from(MOST_REACH) {
        return None;
    }
    let size = size as i64;
    Some(if a < 0 { -size } else { size })
}

// A multiple of an amount, absent exactly when the factor exceeds MOST_FACTOR or the multiple's reach would exceed MOST_REACH.
pub fn multiple<const N: usize>(factor: u32, mut a: [i64; N]) -> Option<[i64; N]>
    ensures { Answers (λ u. u) result (multipliable factor a.entry) (times factor a.entry) }
{
    if !multiple_within(factor, reach(a)) {
        return None;
    }
    for place in a.iter_mut() {
        *place = multiply(factor, *place)?;
    }
    Some(a)
}

// A ten-thousandth of each place, rounded down.
pub fn share<const N: usize>(mut a: [i64; N]) -> [i64; N]
    ensures { result ≡ share a.entry }
{
    for place in a.iter_mut() {
        *place = place.div_euclid(i64::from(WHOLE));
    }
    a
}

// Place i of an amount, absent past the last.
pub fn place<const N: usize>(a: [i64; N], i: usize) -> Option<i64>
    ensures { result ≡ slice_get a.entry i }
{
    a.get(i).copied()
}

// The amount with another value in place i, absent past the last.
pub fn with_place<const N: usize>(mut a: [i64; N], i: usize, value: i64) -> Option<[i64; N]>
    ensures { Answers (λ u. u) result (nat_lt i (length a.entry)) (slice_set a.entry i value) }
{
    if i >= N {
        return None;
    }
    a[i] = value;
    Some(a)
}
