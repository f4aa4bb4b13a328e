// Why a request is not answered by a plan.
ghost use Rattle.std.specs.Prelude.{◌≡◌, Some};
ghost use Rattle.reply.specs.Refusals.{number_of, place_of, refusal_text, unanswered_text};
ghost use Rattle.reply.specs.declared.answer.Refusal.TheVariants.{Broken};
ghost use Rattle.reply.specs.declared.answer.Unanswered.TheVariants.{Refused, NoMemory};

use planner::refusal::Refusal as PlanRefusal;
use reading::rules::ReadRefusal;
use std::alloc::AllocError;
use std::error::Error;
use std::fmt;

// Why a request has no plan: what its text says.
#[derive(Clone, Copy, PartialEq, Eq, Debug)]
pub enum Refusal {
    // The text breaks a rule at a line.
    Broken(ReadRefusal),
    // One of the sweeps would leave a value beyond its reach; the line that names their number.
    BeyondReach(usize),
}

// Two numbers of one refusal: as two From they would be told apart only by the type that is wanted.
impl Refusal {
    // Its number among all refusals of the house.
    pub fn number(self) -> u32
        ensures { result ≡ number_of self }
    {
        match self {
            Refusal::Broken(refusal) => refusal.number(),
            Refusal::BeyondReach(line) => PlanRefusal::BeyondReach(line).number(),
        }
    }

    // The line, counted from 1.
    pub fn place(self) -> usize
        ensures { result ≡ place_of self }
    {
        match self {
            Refusal::Broken(refusal) => refusal.place(),
            Refusal::BeyondReach(line) => line,
        }
    }
}

// The line in which a refusal is told, without its line end.
impl fmt::Display for Refusal {
    ghost output = { λ e. Some (refusal_text e) };

    fn fmt<W: fmt::Write>(&self, f: &mut fmt::Formatter<W>) -> fmt::Result {
        let number = self.number();
        let place = self.place();
        write!(f, "refused={number},{place}")
    }
}

// Why no plan is given: the request has none, or memory is wanting.
#[derive(Clone, Copy, PartialEq, Eq, Debug)]
pub enum Unanswered {
    // It has none.
    Refused(Refusal),
    // There is no memory for the tables and the text of its plan.
    NoMemory,
}

// A refusal as its line, and want of memory in words.
impl fmt::Display for Unanswered {
    ghost output = { λ e. Some (unanswered_text e) };

    fn fmt<W: fmt::Write>(&self, f: &mut fmt::Formatter<W>) -> fmt::Result {
        match *self {
            Self::Refused(refusal) => write!(f, "{refusal}"),
            Self::NoMemory => write!(f, "no memory for the tables and the text of the plan"),
        }
    }
}

impl Error for Unanswered {}

impl From<Refusal> for Unanswered {
    ghost from_gives = { λ e r. r ≡ Refused e };

    fn from(refusal: Refusal) -> Unanswered {
        Unanswered::Refused(refusal)
    }
}

impl From<ReadRefusal> for Unanswered {
    ghost from_gives = { λ e r. r ≡ Refused (Broken e) };

    fn from(refusal: ReadRefusal) -> Unanswered {
        Unanswered::Refused(Refusal::Broken(refusal))
    }
}

impl From<AllocError> for Unanswered {
    ghost from_gives = { λ _ r. r ≡ NoMemory };

    fn from(_error: AllocError) -> Unanswered {
        Unanswered::NoMemory
    }
}
