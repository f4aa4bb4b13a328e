// Numbers and answers mixed into one number, the digest, so that none can be left out unnoticed.
ghost use Rattle.std.specs.Prelude.{◌≡◌, MatchOption};
ghost use Rattle.bench.specs.Digests.{absent, mix as the_mix, with_flag, with_bill, with_outcome, with_place};

use interface::plant::{Bill, Outcome};

// Odd, with ones and zeros all over.
const MULTIPLIER: u64 = 6_364_136_223_846_793_005;
// Stands for an answer that is absent: no number that is answered is so large.
const ABSENT: u64 = u64::MAX;

// The digest with one more number.
pub(crate) fn mix(digest: u64, number: u64) -> u64
    ensures { result ≡ the_mix digest number }
{
    digest.wrapping_mul(MULTIPLIER).wrapping_add(number)
}

pub(crate) fn mix_flag(digest: u64, flag: bool) -> u64
    ensures { result ≡ with_flag digest flag }
{
    mix(digest, u64::from(flag))
}

// An answer of two numbers, or its absence.
fn mix_answer(digest: u64, answer: Option<(u64, u64)>) -> u64
    ensures { MatchOption answer (result ≡ the_mix digest absent)
        (λ two. result ≡ the_mix (the_mix digest two.0) two.1) }
{
    match answer {
        Some((first, second)) => mix(mix(digest, first), second),
        None => mix(digest, ABSENT),
    }
}

pub(crate) fn mix_bill(digest: u64, bill: Option<Bill>) -> u64
    ensures { result ≡ with_bill digest bill }
{
    mix_answer(
        digest,
        bill.map(|bill| (u64::from(bill.seconds), u64::from(bill.cents))),
    )
}

pub(crate) fn mix_outcome(digest: u64, outcome: Option<Outcome>) -> u64
    ensures { result ≡ with_outcome digest outcome }
{
    mix_answer(
        digest,
        outcome.map(|outcome| (outcome.next as u64, u64::from(outcome.weight))),
    )
}

// A place of an amount: its sign and its size.
pub(crate) fn mix_place(digest: u64, place: Option<i64>) -> u64
    ensures { result ≡ with_place digest place }
{
    mix_answer(
        digest,
        place.map(|number| (u64::from(number < 0), number.unsigned_abs())),
    )
}
