ghost use Rattle.std.specs.Prelude.{◌≡◌, IfOk};
ghost use Rattle.desk.specs.Asking.{asked, called, ask_of, key_of, number_of, Suits, AsksExactly};

use lines::reading::{Line, Lines};
use reading::rules::Rule;
use reading::values::number_between;

/// What is due, and so may be asked next.
#[derive(Clone, Copy, PartialEq, Eq, Debug)]
pub enum Due {
    /// The state in which a book is made.
    State,
    /// The call for the next order.
    Order,
    /// The call to carry the order out.
    CarryOut,
    /// The outcome of the window on air.
    Outcome,
}

/// What a line asks.
#[derive(Clone, Copy, PartialEq, Eq, Debug)]
pub enum Ask {
    /// A book in this state.
    State(u32),
    /// The next order.
    Order,
    /// That the order is carried out.
    CarryOut,
    /// That the outcome of this number is booked.
    Outcome(u32),
}

// The number that a value is.
fn number(value: &[u8]) -> Result<u32, Rule>
    ensures { result ≡ number_of value.now }
{
    number_between(value, 0, u32::MAX).ok_or(Rule::OutOfRange)
}

// What is asked, if the value is this word.
fn called(value: &[u8], word: &[u8], ask: Ask) -> Result<Ask, Rule>
    ensures { result ≡ called value.now word.now ask }
{
    if value == word {
        Ok(ask)
    } else {
        Err(Rule::Unexpected)
    }
}

impl Due {
    // The key of the line that is due.
    fn key(self) -> &'static [u8]
        ensures { result.now ≡ key_of self }
    {
        match self {
            Due::State => b"state",
            Due::Order => b"call",
            Due::CarryOut => b"call",
            Due::Outcome => b"report",
        }
    }

    // What the value of that line asks.
    fn ask(self, value: &[u8]) -> Result<Ask, Rule>
        ensures { result ≡ ask_of self value.now }
    {
        match self {
            Due::State => Ok(Ask::State(number(value)?)),
            Due::Order => called(value, b"issue", Ask::Order),
            Due::CarryOut => called(value, b"carry-out", Ask::CarryOut),
            Due::Outcome => Ok(Ask::Outcome(number(value)?)),
        }
    }
}

/// What the first line of a text asks, if that is what is due; else the rule that the line breaks.
pub fn asked(due: Due, text: &[u8]) -> Result<Ask, Rule>
    ensures value { result ≡ asked due text.now }
    ensures suits { IfOk result (Suits due) }
    ensures law { AsksExactly due text.now result }
{
    match Lines::new(text).next_line().line {
        Line::Pair(key, value) if key == due.key() => due.ask(value),
        Line::Pair(_, _) => Err(Rule::Unexpected),
        Line::Fault(fault) => Err(Rule::from(fault)),
    }
}
