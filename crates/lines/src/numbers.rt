// Numbers in base ten: at least one digit, no needless zero in front, at most one minus and none before 0.
ghost use Rattle.std.specs.Prelude.{◌≡◌, ◌^◌, ◌≤◌, Some};
ghost use Rattle.lines.specs.Numeral.{needless_zero, pushed, numeral, negated, signed_numeral, ReadsNumber, ReadsSigned};

// The bytes of a number: digits, and a minus in front.
pub const ZERO_DIGIT: u8 = b'0';

pub const MINUS_SIGN: u8 = b'-';

pub const BASE: u64 = 10;

// The most that a signed number of 64 bits has behind a minus, and without one.
const MOST_NEGATED: u64 = 1 << 63;

const MOST_SIGNED: u64 = i64::MAX as u64;

fn has_needless_zero(text: &[u8]) -> bool
    ensures { result ≡ needless_zero text.now }
{
    matches!(text, [ZERO_DIGIT, _, ..])
}

// One digit more behind `value`, absent where `digit` is none or the number would be above `most`.
fn push_digit(value: u64, digit: u8, most: u64) -> Option<u64>
    ensures { result ≡ pushed value digit most }
{
    if !digit.is_ascii_digit() {
        return None;
    }
    let grown = value
        .checked_mul(BASE)?
        .checked_add(u64::from(digit - ZERO_DIGIT))?;
    (grown <= most).then_some(grown)
}

// The number that `text` writes, absent where it writes none or one above `most`.
pub fn number(text: &[u8], most: u64) -> Option<u64>
    ensures value { result ≡ numeral text.now most }
    ensures law { ReadsNumber text.now most result }
{
    if text.is_empty() || has_needless_zero(text) {
        return None;
    }
    text.iter()
        .try_fold(0, |value, digit| push_digit(value, *digit, most))
}

// `magnitude` behind a minus: none at 0. No conversion of types but arithmetic: with TryFrom a number would become its negative.
fn negate(magnitude: u64) -> Option<i64>
    requires { magnitude ≤ 2 ^ 63 }
    ensures { result ≡ negated (Some magnitude) }
{
    match magnitude {
        0 => None,
        _ => 0_i64.checked_sub_unsigned(magnitude),
    }
}

// The number of 64 bits that `text` writes, absent where it writes none.
pub fn signed(text: &[u8]) -> Option<i64>
    ensures value { result ≡ signed_numeral text.now }
    ensures law { ReadsSigned text.now result }
{
    match text {
        [MINUS_SIGN, digits @ ..] => negate(number(digits, MOST_NEGATED)?),
        _ => Some(number(text, MOST_SIGNED)? as i64),
    }
}
