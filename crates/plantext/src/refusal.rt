ghost use Rattle.std.specs.Prelude.{◌≡◌};
ghost use Rattle.plantext.specs.Refusals.{line_number, line_place, fault_number, plan_number, plan_place};

use lines::reading::BAD_LINE;

// Why a line of a plan is not written.
#[derive(Clone, Copy, PartialEq, Eq, Debug)]
pub enum LineRefusal {
    // The tables are not of one length, or it is not 1 to MOST_STATES.
    WrongLength,
    // The space is too small for the line and its line end.
    NoSpace,
}

// Two numbers of one refusal: as two From they would be told apart only by the type that is wanted. None has a place; a trait that
// says so for all such refusals would be longer than the match.
impl LineRefusal {
    pub fn number(self) -> u32
        ensures { result ≡ line_number self }
    {
        match self {
            LineRefusal::WrongLength => 7,
            LineRefusal::NoSpace => 12,
        }
    }

    pub fn place(self) -> usize
        ensures { result ≡ line_place self }
    {
        match self {
            LineRefusal::WrongLength => 0,
            LineRefusal::NoSpace => 0,
        }
    }
}

// What is wrong with a line of a text that should be a plan.
#[derive(Clone, Copy, PartialEq, Eq, Debug)]
pub enum Fault {
    // No line of key=value, or with a bad byte or length.
    BadLine,
    // Not the key or the word that is due, or the text ends early or goes on after the end.
    NotDue,
    // A number or a list that is out of form, range or turn.
    OutOfForm,
}

// Its one number is a method and no From: it is told by PlanRefusal, which holds it and has a method of this name.
impl Fault {
    pub fn number(self) -> u32
        ensures { result ≡ fault_number self }
    {
        match self {
            Fault::BadLine => 1,
            Fault::NotDue => 2,
            Fault::OutOfForm => 3,
        }
    }
}

// The fault of a line that is none, by its number. The readers of plants tell it by a like test, as a rule of theirs; a
// plan's text stands on none of them. The fault comes as a number, as `lines` tells it: a line that was read is two borrowed
// slices or its fault, by a rule of the project (docs/DECISIONS.md, 36).
impl From<u8> for Fault {
    ghost use Rattle.plantext.specs.Reading.{said_fault};

    ghost from_gives = { λ number fault. fault ≡ said_fault number };

    fn from(number: u8) -> Fault {
        if number == BAD_LINE {
            Fault::BadLine
        } else {
            Fault::NotDue
        }
    }
}

// Why a text is refused as a plan.
#[derive(Clone, Copy, PartialEq, Eq, Debug)]
pub enum PlanRefusal {
    // A fault in this line, counted from 1.
    AtLine(Fault, usize),
    // A table's length is not the number of states that the text says.
    WrongLength,
}

// Two numbers of one refusal: as two From they would be told apart only by the type that is wanted.
impl PlanRefusal {
    pub fn number(self) -> u32
        ensures { result ≡ plan_number self }
    {
        match self {
            PlanRefusal::AtLine(fault, _) => fault.number(),
            PlanRefusal::WrongLength => 7,
        }
    }

    // The line, or 0 for a length.
    pub fn place(self) -> usize
        ensures { result ≡ plan_place self }
    {
        match self {
            PlanRefusal::AtLine(_, line) => line,
            PlanRefusal::WrongLength => 0,
        }
    }
}
