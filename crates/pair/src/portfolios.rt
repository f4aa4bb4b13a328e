// The portfolios of a pair, and which units each renews.
ghost use Rattle.std.specs.Prelude.{◌≡◌};
ghost use Rattle.pair.specs.Portfolios.{Numbered, portfolio_number, renews_one, renews_two};

// How many portfolios there are; specs/Portfolios.antt has the same number, and that of each portfolio, for the contracts.
pub const PORTFOLIOS: usize = 4;

// What is renewed in a window.
#[derive(Clone, Copy, PartialEq, Eq, Debug)]
pub enum Portfolio {
    Nothing,
    UnitOne,
    UnitTwo,
    Both,
}

// A number that no portfolio has.
#[derive(Clone, Copy, PartialEq, Eq, Debug)]
pub struct NoPortfolio(pub usize);

impl TryFrom<usize> for Portfolio {
    type Error = NoPortfolio;

    ghost try_from_gives = { Numbered };

    fn try_from(number: usize) -> Result<Self, NoPortfolio> {
        match number {
            0 => Ok(Portfolio::Nothing),
            1 => Ok(Portfolio::UnitOne),
            2 => Ok(Portfolio::UnitTwo),
            3 => Ok(Portfolio::Both),
            _ => Err(NoPortfolio(number)),
        }
    }
}

// A method for each unit: as one that is lent the unit they would be no plainer, since it would ask for an enum of the units,
// for which this crate, with its fields one and two, has no other use.
impl Portfolio {
    pub(crate) fn renews_one(self) -> bool
        ensures { result ≡ renews_one (portfolio_number self) }
    {
        matches!(self, Portfolio::UnitOne | Portfolio::Both)
    }

    pub(crate) fn renews_two(self) -> bool
        ensures { result ≡ renews_two (portfolio_number self) }
    {
        matches!(self, Portfolio::UnitTwo | Portfolio::Both)
    }
}
