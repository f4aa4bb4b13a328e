// The best so far of amounts that come one after the other, the first among equals.
ghost use Rattle.std.specs.Prelude.{◌≡◌, ℕ, Option};
ghost use Rattle.std.specs.Option.{option_map};
ghost use Rattle.interface.specs.Rows.{Row};
ghost use Rattle.lookahead.specs.Best.{FirstBest, better, first_best};
ghost use Rattle.lookahead.specs.Choices.{Asked, EachFits, pick, good};

use interface::tariff::Tariff;

/// An amount with its number.
#[derive(Clone, Copy, PartialEq, Eq, Debug)]
pub struct Choice<A> {
    pub at: usize,
    pub amount: A,
}

/// Which of several amounts is the best: the least or the greatest.
#[derive(Clone, Copy, PartialEq, Eq, Debug)]
pub enum Aim {
    Least,
    Greatest,
}

impl Aim {
    // Whether one amount is at least as good as another.
    fn good<T: Tariff>(self, tariff: &T, a: T::Amount, b: T::Amount) -> bool
        ensures { result ≡ good self (T.scale tariff.now) (T.Tariff.row a) (T.Tariff.row b) }
    {
        match self {
            Aim::Least => tariff.at_most(a, b),
            Aim::Greatest => tariff.at_most(b, a),
        }
    }

    /// The best so far, with one more that may be absent.
    pub fn keep<T: Tariff>(
        self,
        tariff: &T,
        best: Option<Choice<T::Amount>>,
        at: usize,
        next: Option<T::Amount>,
    ) -> Option<Choice<T::Amount>>
        ensures { option_map (pick T.Tariff.row) result
            ≡ better (good self (T.scale tariff.now)) (option_map (pick T.Tariff.row) best) at
            (option_map T.Tariff.row next) }
    {
        match (best, next) {
            (_, None) => best,
            (None, Some(amount)) => Some(Choice { at, amount }),
            (Some(kept), Some(amount)) => {
                if self.good(tariff, kept.amount, amount) {
                    best
                } else {
                    Some(Choice { at, amount })
                }
            }
        }
    }

    /// The best of the amounts numbered below a count, the first among equals. It asks for each
    /// number once, in order.
    pub fn first_best<T: Tariff, F: Fn(usize) -> Option<T::Amount>>(
        self,
        tariff: &T,
        count: usize,
        ask: F,
    ) -> Option<Choice<T::Amount>>
        requires { F.IsAlwaysCallable ask }
        ensures is { (rows : ℕ → Option Row) → Asked (F.post ask) T.Tariff.row count rows
            → option_map (pick T.Tariff.row) result
            ≡ first_best (good self (T.scale tariff.now)) rows count }
        ensures law { (rows : ℕ → Option Row) → Asked (F.post ask) T.Tariff.row count rows
            → EachFits (T.scale tariff.now) rows
            → FirstBest (good self (T.scale tariff.now)) rows count
            (option_map (pick T.Tariff.row) result) }
    {
        let mut best = None;
        for x in 0..count {
            best = self.keep(tariff, best, x, ask(x));
        }
        best
    }
}
