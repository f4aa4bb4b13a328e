// A line of a plan under construction.
ghost use Rattle.std.specs.Prelude.{◌≡◌, ◌+◌, ◌<◌, ◌≤◌, [], ◌∷◌, ◌++◌, length};
ghost use Rattle.std.specs.Fmt.{signed_decimal};
ghost use Rattle.interface.specs.Rows.{Row};
ghost use Rattle.plantext.specs.Lines.{amount as amount_text, Held};
ghost use Rattle.plantext.specs.Spaces.{place_room, amount_room, line_room, separated};

use arrayvec::ArrayVec;
use interface::tariff::Tariff;
use itoa::{Buffer, Integer};
use lines::cutting::COMMA;

/// Room for every line of a plan, with its line end; specs/Spaces.antt has the same number for the contracts.
pub const LINE_ROOM: usize = 200;

/// A line under construction, for whoever writes lines of amounts and numbers.
#[derive(Drop)]
pub struct LineText {
    pub(crate) bytes: ArrayVec<u8, LINE_ROOM>,
}

impl LineText {
    /// A line with nothing in it.
    pub fn new() -> Self
        ensures { result.bytes.items ≡ [] }
    {
        LineText {
            bytes: ArrayVec::new(),
        }
    }

    /// What stands in the line.
    pub fn as_slice(&self) -> &[u8]
        ensures text { result.now ≡ self.now.bytes.items }
        ensures fits { length result.now ≤ line_room }
    {
        self.bytes.as_slice()
    }

    /// Puts a byte behind what stands there; there has to be room.
    pub fn push_byte(&mut self, byte: u8)
        requires { length self.old.bytes.items < line_room }
        ensures text { self.new.bytes.items ≡ self.old.bytes.items ++ byte ∷ [] }
        ensures len { length self.new.bytes.items ≡ length self.old.bytes.items + 1 }
    {
        self.bytes.push(byte);
    }

    /// The same of a text.
    pub fn push(&mut self, text: &[u8])
        requires { length self.old.bytes.items + length text.now ≤ line_room }
        ensures text { self.new.bytes.items ≡ self.old.bytes.items ++ text.now }
        ensures len { length self.new.bytes.items ≡ length self.old.bytes.items + length text.now }
    {
        self.bytes.try_extend_from_slice(text).unwrap();
    }

    /// The same of a number in base ten.
    pub fn push_number<I: Integer>(&mut self, n: I)
        requires { length self.old.bytes.items + I.MAX_STR_LEN ≤ line_room }
        ensures text { self.new.bytes.items ≡ self.old.bytes.items ++ I.text n }
        ensures len { length self.new.bytes.items ≤ length self.old.bytes.items + I.MAX_STR_LEN }
    {
        self.push(Buffer::new().format(n).as_bytes());
    }

    // Place i of an amount, with a comma before it unless it is the first.
    fn push_place(&mut self, place: i64, i: usize)
        requires { length self.old.bytes.items + place_room ≤ line_room }
        ensures text { self.new.bytes.items ≡ self.old.bytes.items ++ separated i (signed_decimal place) }
        ensures len { length self.new.bytes.items ≤ length self.old.bytes.items + place_room }
    {
        if i > 0 {
            self.push_byte(COMMA);
        }
        self.push_number(place);
    }

    /// The places of an amount, with a comma between each two. So each of them has 64 bits.
    pub fn push_amount<T: Tariff>(&mut self, tariff: &T, amount: T::Amount)
        requires { length self.old.bytes.items + amount_room ≤ line_room }
        ensures text { self.new.bytes.items ≡ self.old.bytes.items ++ amount_text (T.Tariff.row amount) }
        ensures len { length self.new.bytes.items ≤ length self.old.bytes.items + amount_room }
        ensures held { Held (T.scale tariff.now).places (T.Tariff.row amount) }
    {
        // By number: a tariff is asked for its places, and there is no slice of them to go over.
        for i in 0..tariff.place_count() {
            self.push_place(tariff.place(amount, i).unwrap(), i);
        }
    }
}
