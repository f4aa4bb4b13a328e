ghost use Rattle.std.specs.Prelude.{◌≡◌};
ghost use Rattle.tariffs.specs.Refusals.{number_of, place_of};

// Why no priced tariff is made.
#[derive(Clone, Copy, PartialEq, Eq, Debug)]
pub enum Unpriced {
    // The rate is above its limit.
    RateOutOfRange,
}

// Two numbers of one refusal: as two From they would be told apart only by the type that is wanted. None has a place; a trait that
// says so for all such refusals would be longer than the match.
impl Unpriced {
    pub fn number(self) -> u32
        ensures { result ≡ number_of self }
    {
        match self {
            Unpriced::RateOutOfRange => 3,
        }
    }

    pub fn place(self) -> usize
        ensures { result ≡ place_of self }
    {
        match self {
            Unpriced::RateOutOfRange => 0,
        }
    }
}
