// The numbers in the value of a line.
ghost use Rattle.std.specs.Prelude.{◌≡◌, length, is_some};
ghost use Rattle.std.specs.Option.{unwrap_or};
ghost use Rattle.lines.specs.Fields.{further};
ghost use Rattle.reading.specs.Values.{number_between, numbers_of, list_of, padded_list, ReadsBetween, ReadsList};

use lines::cutting::Fields;
use lines::numbers::number;

// The number that `value` writes, absent where it writes none, one below `least` or one above `most`.
pub fn number_between(value: &[u8], least: u32, most: u32) -> Option<u32>
    ensures value { result ≡ number_between value.now least most }
    ensures law { ReadsBetween value.now least most result }
{
    let n = number(value, u64::from(most))? as u32;
    (least <= n).then_some(n)
}

// Reads `value` as a list of exactly `count` numbers, each at most `most` and with a comma between each two. Zeros stand
// behind them; absent where it is no such list, as there is none of 0 numbers, or where `count` is above N.
#[tactic(auto, using(crate::proofs::ValueLaws::list_law))]
pub fn number_list<const N: usize>(value: &[u8], most: u32, count: usize) -> Option<[u32; N]>
    ensures value { result ≡ padded_list N value.now most count }
    ensures law { ReadsList value.now most count (list_of value.now most count) }
{
    if count > N {
        return None;
    }
    let mut numbers = [0; N];
    let mut fields = Fields::new(value);
    for number in &mut numbers[..count] {
        *number = number_between(fields.next()?, 0, most)?;
    }
    fields.next().is_none().then_some(numbers)
}

// Reads the fields that are left as numbers into `out`, one for each place, and nothing where one is missing, is left
// over, or is no number up to `most`. The places are written from the last one back, once all that follows is read.
fn take_numbers(mut fields: Fields, most: u32, out: &mut [u32]) -> Option<()>
    ensures test { is_some result ≡ is_some (numbers_of (further fields.entry.rest) most (length out.old)) }
    ensures after { out.new ≡ unwrap_or (numbers_of (further fields.entry.rest) most (length out.old)) out.old }
{
    if out.is_empty() {
        return fields.next().is_none().then_some(());
    }
    let field = fields.next()?;
    let n = number_between(field, 0, most)?;
    take_numbers(fields, most, &mut out[1..])?;
    out[0] = n;
    Some(())
}

/// Reads `value` as a list of exactly as many numbers as `out` has places, each at most `most` and with a comma between
/// each two. Where it is no such list, `out` stays as it was.
pub fn read_list(value: &[u8], most: u32, out: &mut [u32]) -> bool
    ensures test { result ≡ is_some (list_of value.now most (length out.old)) }
    ensures after { out.new ≡ unwrap_or (list_of value.now most (length out.old)) out.old }
    ensures law { ReadsList value.now most (length out.old) (list_of value.now most (length out.old)) }
{
    take_numbers(Fields::new(value), most, out).is_some()
}
