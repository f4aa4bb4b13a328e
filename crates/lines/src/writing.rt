// Texts and numbers written into lent space. A text that has no room there is not begun. Space and place are the caller's,
// since nothing here takes memory; what writes a line of its own first builds it as a list.
ghost use Rattle.std.specs.Prelude.{◌≡◌, decimal};
ghost use Rattle.std.specs.Fmt.{signed_decimal as signed_text};
ghost use Rattle.lines.specs.Placed.{end_of, placed};

use itoa::{Buffer, Integer};

// Writes `text` at the place `at`, and gives the place behind it; absent where it has no room.
pub fn write_bytes(text: &[u8], out: &mut [u8], at: usize) -> Option<usize>
    ensures end { result ≡ end_of text.now at out.old }
    ensures after { out.new ≡ placed text.now at out.old }
{
    let end = at.checked_add(text.len())?;
    if end > out.len() {
        return None;
    }
    out[at..end].copy_from_slice(text);
    Some(end)
}

// Writes `n` in base ten at the place `at`, and gives the place behind it; absent where it has no room.
fn write_integer<I: Integer>(n: I, out: &mut [u8], at: usize) -> Option<usize>
    ensures end { result ≡ end_of (I.text n) at out.old }
    ensures after { out.new ≡ placed (I.text n) at out.old }
{
    write_bytes(Buffer::new().format(n).as_bytes(), out, at)
}

// A number in base ten. This and the next are two names of write_integer: as one public function they would be no plainer, as
// it says in the words of `itoa` what they say in those of a text.
pub fn write_number(n: u64, out: &mut [u8], at: usize) -> Option<usize>
    ensures end { result ≡ end_of (decimal n) at out.old }
    ensures after { out.new ≡ placed (decimal n) at out.old }
{
    write_integer(n, out, at)
}

// The same of a number with a sign: a minus stands before a number below 0.
pub fn write_signed(z: i64, out: &mut [u8], at: usize) -> Option<usize>
    ensures end { result ≡ end_of (signed_text z) at out.old }
    ensures after { out.new ≡ placed (signed_text z) at out.old }
{
    write_integer(z, out, at)
}
