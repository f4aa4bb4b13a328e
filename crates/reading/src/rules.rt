// Why a text is refused, and where.
ghost use Rattle.std.specs.Prelude.{◌≡◌};
ghost use Rattle.reading.specs.Rules.{number_of, place_of, fault_rule};

use lines::reading::BAD_LINE;

// The rule that a line breaks.
#[derive(Clone, Copy, PartialEq, Eq, Debug)]
pub enum Rule {
    // The line itself is bad: its bytes, its length, or no key with an equals sign.
    BadLine,
    // Not the key or the word that is due, or no line at all.
    Unexpected,
    // A number or a list out of form, range or turn.
    OutOfRange,
    // More states than a plant may have.
    TooManyStates,
    // An arc that leads nowhere new: into the door, back to its own part, or not after the one before.
    WrongArc,
    // Not even the renewal of everything is feasible.
    NoFullRenewal,
}

// The first rule that a text breaks, and the line, counted from 1.
#[derive(Clone, Copy, PartialEq, Eq, Debug)]
pub struct ReadRefusal {
    pub rule: Rule,
    pub line: usize,
}

// Its one number is a method and no From: it is told by ReadRefusal, which holds it and has a method of this name.
impl Rule {
    // Its number among all refusals of the house.
    pub fn number(self) -> u32
        ensures { result ≡ number_of self }
    {
        match self {
            Rule::BadLine => 1,
            Rule::Unexpected => 2,
            Rule::OutOfRange => 3,
            Rule::TooManyStates => 4,
            Rule::WrongArc => 5,
            Rule::NoFullRenewal => 6,
        }
    }
}

// Two numbers of one refusal: as two From they would be told apart only by the type that is wanted.
impl ReadRefusal {
    pub fn number(self) -> u32
        ensures { result ≡ number_of self.rule }
    {
        self.rule.number()
    }

    pub fn place(self) -> usize
        ensures { result ≡ place_of self }
    {
        self.line
    }
}

// The rule that is broken where no line could be read, by the fault of the line: its own, or else that the text ends early.
// The fault comes as a number, as `lines` tells it: a line that was read is two borrowed slices or its fault, by a rule of the
// project (docs/DECISIONS.md, 36). A plan's text has the like for faults of its own, as it stands on no reader.
impl From<u8> for Rule {
    ghost from_gives = { λ fault rule. rule ≡ fault_rule fault };

    fn from(fault: u8) -> Rule {
        if fault == BAD_LINE {
            Rule::BadLine
        } else {
            Rule::Unexpected
        }
    }
}
