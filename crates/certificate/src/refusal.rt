ghost use Rattle.std.specs.Prelude.{◌≡◌};
ghost use Rattle.certificate.specs.Refusals.{number_of, place_of};

/// Which test a certificate or a recipe failed, and where.
#[derive(Clone, Copy, PartialEq, Eq, Debug)]
pub enum Refusal {
    /// Values or policy: more or fewer entries than the plant has states.
    WrongLength,
    /// This state's value reaches too far; at the number of states, a claim does.
    BeyondReach(usize),
    /// What the policy names in this state cannot be done there.
    Infeasible(usize),
    /// Some feasible portfolio of this state gains less than low.
    LowBroken(usize),
    /// In this state the policy's portfolio gains more than high.
    HighBroken(usize),
}

impl Refusal {
    /// The number of the rule that is broken.
    pub fn number(self) -> u32
        ensures { result ≡ number_of self }
    {
        match self {
            Refusal::WrongLength => 7,
            Refusal::BeyondReach(_) => 8,
            Refusal::Infeasible(_) => 9,
            Refusal::LowBroken(_) => 10,
            Refusal::HighBroken(_) => 11,
        }
    }

    /// Where it is broken: a state, the number of states for a claim, 0 for a length.
    pub fn place(self) -> usize
        ensures { result ≡ place_of self }
    {
        match self {
            Refusal::WrongLength => 0,
            Refusal::BeyondReach(s) => s,
            Refusal::Infeasible(s) => s,
            Refusal::LowBroken(s) => s,
            Refusal::HighBroken(s) => s,
        }
    }
}
