// The limits of every plant and tariff, each named once; specs/Limits.antt has the same numbers for the contracts.
ghost use Rattle.std.specs.Prelude.{◌≡◌};
ghost use Rattle.interface.specs.Limits.{most_states, most_portfolios, most_outcomes, most_seconds, most_cents, whole, most_charge, most_threshold, most_places, most_reach, most_factor, most_value, most_claim, most_windows};

pub const MOST_STATES: usize = 4096;

pub const MOST_PORTFOLIOS: usize = 64;

pub const MOST_OUTCOMES: usize = 64;

pub const MOST_SECONDS: u32 = 10_000;

pub const MOST_CENTS: u32 = 10_000_000;
// Weights are in ten-thousandths: those of one list of outcomes add up to this number.
pub const WHOLE: u32 = 10_000;

// The largest single charge that a plant is described by, in cents, and the highest threshold of survival.
pub const MOST_CHARGE: u32 = 1_000_000;

pub const MOST_THRESHOLD: u32 = WHOLE;

pub const MOST_PLACES: usize = 4;
// No sum, difference or multiple of amounts is answered beyond this reach.
pub const MOST_REACH: u64 = 1_000_000_000_000_000_000;
// The largest number by which an amount is multiplied.
pub const MOST_FACTOR: u32 = 10_000;

/// The farthest that a value of a table may reach.
pub const MOST_VALUE: u64 = 1_000_000_000_000;

/// The farthest that the claims low and high may reach.
pub const MOST_CLAIM: u64 = 100_000_000_000_000_000;

/// The most windows that a book takes.
pub const MOST_WINDOWS: u32 = 1_000_000;

/// The limits of a plant's counts, of a bill and of the places of an amount.
#[derive(Clone, Copy)]
pub struct Limits {
    /// The most states of a plant.
    pub states: usize,
    /// The most portfolios of a plant.
    pub portfolios: usize,
    /// The most outcomes of a pair.
    pub outcomes: usize,
    /// The most dark seconds of a bill.
    pub seconds: u32,
    /// The most cents of a bill.
    pub cents: u32,
    /// The most places of an amount.
    pub places: usize,
}

/// The limits in one value. The clauses speak of every constant above: each is the number that the
/// laws of plants and tariffs name.
pub fn all() -> Limits
    ensures counts { (result.states ≡ most_states) × (result.portfolios ≡ most_portfolios)
        × (result.outcomes ≡ most_outcomes) }
    ensures bills { (result.seconds ≡ most_seconds) × (result.cents ≡ most_cents) }
    ensures places { result.places ≡ most_places }
    ensures plant { (MOST_STATES ≡ most_states) × (MOST_PORTFOLIOS ≡ most_portfolios) × (MOST_OUTCOMES ≡ most_outcomes) × (WHOLE ≡ whole) }
    ensures bill { (MOST_SECONDS ≡ most_seconds) × (MOST_CENTS ≡ most_cents) }
    ensures described { (MOST_CHARGE ≡ most_charge) × (MOST_THRESHOLD ≡ most_threshold) }
    ensures amount { (MOST_PLACES ≡ most_places) × (MOST_REACH ≡ most_reach) × (MOST_FACTOR ≡ most_factor) }
    ensures certificate { (MOST_VALUE ≡ most_value) × (MOST_CLAIM ≡ most_claim) }
    ensures book { MOST_WINDOWS ≡ most_windows }
{
    Limits {
        states: MOST_STATES,
        portfolios: MOST_PORTFOLIOS,
        outcomes: MOST_OUTCOMES,
        seconds: MOST_SECONDS,
        cents: MOST_CENTS,
        places: MOST_PLACES,
    }
}
