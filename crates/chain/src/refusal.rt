// Why no chain is made.
ghost use Rattle.chain.specs.Refusals.{refusal_number, refusal_place};
ghost use Rattle.std.specs.Prelude.{◌≡◌};

#[derive(Clone, Copy, PartialEq, Eq, Debug)]
pub enum ChainRefusal {
    // A number is outside its range.
    OutOfRange,
    // The ages and the failed part make more states than a plant may have.
    TooManyStates,
    // The parts have no work order together, or not even their renewal reaches the threshold.
    NoFullRenewal,
}

// Two numbers of one refusal: as two From they would be told apart only by the type that is wanted. None has a place; a trait that
// says so for all such refusals would be longer than the match.
impl ChainRefusal {
    // Its number among all refusals of the house.
    pub fn number(self) -> u32
        ensures { result ≡ refusal_number self }
    {
        match self {
            ChainRefusal::OutOfRange => 3,
            ChainRefusal::TooManyStates => 4,
            ChainRefusal::NoFullRenewal => 6,
        }
    }

    // Numbers that no text holds have no line, so the place is 0.
    pub fn place(self) -> usize
        ensures { result ≡ refusal_place self }
    {
        match self {
            ChainRefusal::OutOfRange => 0,
            ChainRefusal::TooManyStates => 0,
            ChainRefusal::NoFullRenewal => 0,
        }
    }
}
