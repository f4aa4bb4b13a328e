// Why no pair is made.
ghost use Rattle.std.specs.Prelude.{◌≡◌};
ghost use Rattle.pair.specs.Refusals.{refusal_number, refusal_place};

#[derive(Clone, Copy, PartialEq, Eq, Debug)]
pub enum PairRefusal {
    // A number is outside its range, or a row does not add up or leads back.
    OutOfRange,
    // Not even the renewal of both units reaches the threshold.
    NoFullRenewal,
}

// Two numbers of one refusal: as two From they would be told apart only by the type that is wanted. None has a place; a trait that
// says so for all such refusals would be longer than the match.
impl PairRefusal {
    // Its number among all refusals of the house.
    pub fn number(self) -> u32
        ensures { result ≡ refusal_number self }
    {
        match self {
            PairRefusal::OutOfRange => 3,
            PairRefusal::NoFullRenewal => 6,
        }
    }

    // Numbers that no text holds have no line, so the place is 0.
    pub fn place(self) -> usize
        ensures { result ≡ refusal_place self }
    {
        match self {
            PairRefusal::OutOfRange => 0,
            PairRefusal::NoFullRenewal => 0,
        }
    }
}
