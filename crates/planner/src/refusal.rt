ghost use Rattle.std.specs.Prelude.{◌≡◌};
ghost use Rattle.planner.specs.Refusals.{number_of, place_of};

/// What kept the planner from a plan, and where.
#[derive(Clone, Copy, PartialEq, Eq, Debug)]
pub enum Refusal {
    /// The number of sweeps asked for is above MOST_SWEEPS.
    TooManySweeps,
    /// Values, working table or policy: more or fewer entries than the plant has states.
    WrongLength,
    /// By some sweep this state, and none before it, would get a value that reaches too far.
    BeyondReach(usize),
}

impl Refusal {
    /// The number of the rule that is broken.
    pub fn number(self) -> u32
        ensures { result ≡ number_of self }
    {
        match self {
            Refusal::TooManySweeps => 3,
            Refusal::WrongLength => 7,
            Refusal::BeyondReach(_) => 8,
        }
    }

    /// Where it is broken: a state, or 0 for a number of sweeps and a length.
    pub fn place(self) -> usize
        ensures { result ≡ place_of self }
    {
        match self {
            Refusal::TooManySweeps => 0,
            Refusal::WrongLength => 0,
            Refusal::BeyondReach(s) => s,
        }
    }
}
