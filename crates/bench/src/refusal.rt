// Why a call answers no number.
ghost use Rattle.std.specs.Prelude.{◌≡◌};
ghost use Rattle.bench.specs.Refusals.{number_of};
ghost use Rattle.bench.specs.declared.refusal.Refused.TheVariants.{Text, Rate, Plan, Book};

use bookkeeping::refusal::Refusal as BookRefusal;
use planner::refusal::Refusal;
use reading::rules::ReadRefusal;
use tariffs::refusal::Unpriced;

// What refused the call.
#[derive(Clone, Copy, PartialEq, Eq, Debug)]
pub(crate) enum Refused {
    Text(ReadRefusal),
    Rate(Unpriced),
    Plan(Refusal),
    Book(BookRefusal),
}

// Its one number is a method and no From: it is that of the refusal held, where it is a method of this name too.
impl Refused {
    // Its number among all refusals of the house.
    pub(crate) fn number(self) -> u32
        ensures { result ≡ number_of self }
    {
        match self {
            Refused::Text(refusal) => refusal.number(),
            Refused::Rate(refusal) => refusal.number(),
            Refused::Plan(refusal) => refusal.number(),
            Refused::Book(refusal) => refusal.number(),
        }
    }
}

impl From<ReadRefusal> for Refused {
    ghost from_gives = { λ e r. r ≡ Text e };

    fn from(refusal: ReadRefusal) -> Refused {
        Refused::Text(refusal)
    }
}

impl From<Unpriced> for Refused {
    ghost from_gives = { λ e r. r ≡ Rate e };

    fn from(refusal: Unpriced) -> Refused {
        Refused::Rate(refusal)
    }
}

impl From<Refusal> for Refused {
    ghost from_gives = { λ e r. r ≡ Plan e };

    fn from(refusal: Refusal) -> Refused {
        Refused::Plan(refusal)
    }
}

impl From<BookRefusal> for Refused {
    ghost from_gives = { λ e r. r ≡ Book e };

    fn from(refusal: BookRefusal) -> Refused {
        Refused::Book(refusal)
    }
}
