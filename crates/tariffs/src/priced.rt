// The priced tariff: everything in one place, dark seconds at a rate.
ghost use Rattle.std.specs.Prelude.{◌≡◌, ◌*◌, ◌<◌, ◌≤◌, [], ◌∷◌, MatchResult, refl};
ghost use Rattle.tariffs.specs.Priced.{most_rate, priced_scale};
ghost use Rattle.std.proofs.Common.{arith, lit≤, rules};
ghost use Rattle.std.proofs.lemmas.Nat.{mul-le};
ghost use Rattle.std.proofs.lemmas.Int.{ints};
ghost use Rattle.std.proofs.lemmas.Bool.Decides.{nat_tests};
ghost use Rattle.tariffs.specs.OrdersLemmas.{first_total, first_trans, first_shift};

use crate::THOUSAND;
use crate::refusal::Unpriced;
use interface::places;
use interface::plant::Bill;
use interface::tariff::Tariff;

// The highest rate of the priced tariff, in cents for one dark second.
pub const MOST_RATE: u32 = 1000;

// An amount of one place, in thousandths of a cent.
#[derive(Clone, Copy, PartialEq, Eq, PartialOrd, Ord, Debug)]
pub struct Cost {
    pub thousandths: i64,
}

// The places in an array, for the arithmetic that all amounts share.
impl From<[i64; 1]> for Cost {
    ghost from_gives = { λ xs a. a.thousandths ∷ [] ≡ xs };

    fn from(places: [i64; 1]) -> Cost {
        let [thousandths] = places;
        Cost { thousandths }
    }
}

impl From<Cost> for [i64; 1] {
    ghost from_gives = { λ a xs. xs ≡ a.thousandths ∷ [] };

    fn from(a: Cost) -> [i64; 1] {
        [a.thousandths]
    }
}

#[derive(Clone, Copy)]
pub struct Priced {
    rate: u32,
    ghost few: { rate ≤ most_rate },
}

impl Priced {
    // The tariff at a rate in cents, refused above MOST_RATE.
    pub fn new(rate: u32) -> Result<Priced, Unpriced>
        ensures { MatchResult result (λ p. (p.rate ≡ rate) × (rate ≤ most_rate)) (λ _. most_rate < rate) }
    {
        if rate > MOST_RATE {
            return Err(Unpriced::RateOutOfRange);
        }
        Ok(Priced { rate })
    }
}

impl Tariff for Priced {
    type Amount = Cost;

    const PLACES: usize = 1;

    ghost PLACES = { 1 };

    ghost scale = { λ p. priced_scale p.rate };

    ghost row = { λ a. a.thousandths ∷ [] };

    ghost lawful = { λ t.
        record {
          some_places = lit≤ tt;
          few_places = lit≤ tt;
          second_fits = refl;
          cent_fits = refl;
          bounded = λ b l.
              let p : b.seconds * (1000 * t.rate) ≤ 10000 * 1000000 = mul-le b.seconds (1000 * t.rate) 10000 1000000 l.dark (omega (arith, t.few)) in
              omega (arith, ints, l.paid);
          transitive = λ u v w _ _ _. first_trans u v w;
          total = λ u v _ _. first_total u v;
          shift = λ u v w p q r. first_shift _ u v w p q r;
          cent_counts = refl;
          second_counts = Prim.grind (arith, nat_tests);
        } };

    ghost places = { λ _. refl };

    ghost fits = { first_of (Prim.search rules, Prim.grind (arith, Self.row.coded.inj)) };

    fn zero(&self) -> Cost {
        Cost { thousandths: 0 }
    }

    fn price(&self, bill: Bill) -> Option<Cost> {
        if !bill.lawful() {
            return None;
        }
        // A second is 1,000 times the rate, a cent 1,000.
        let seconds = i64::from(bill.seconds) * (THOUSAND * i64::from(self.rate));
        let cents = i64::from(bill.cents) * THOUSAND;
        Some(Cost {
            thousandths: seconds + cents,
        })
    }

    fn at_most(&self, a: Cost, b: Cost) -> bool {
        a <= b
    }

    // The interface has no body for these: an array's length cannot be a trait's constant, as a const parameter of the trait it
    // would stand in every bound, and an associated type of arrays with two conversions and their law would be asked of every
    // tariff, also of one whose amount has no array. What they share is in places.
    fn sum(&self, a: Cost, b: Cost) -> Option<Cost> {
        places::sum(a.into(), b.into()).map(Cost::from)
    }

    fn difference(&self, a: Cost, b: Cost) -> Option<Cost> {
        places::difference(a.into(), b.into()).map(Cost::from)
    }

    fn multiple(&self, factor: u32, a: Cost) -> Option<Cost> {
        places::multiple(factor, a.into()).map(Cost::from)
    }

    fn share(&self, a: Cost) -> Cost {
        Cost::from(places::share(a.into()))
    }

    fn reach(&self, a: Cost) -> u64 {
        places::reach(a.into())
    }

    fn place(&self, a: Cost, i: usize) -> Option<i64> {
        places::place(a.into(), i)
    }

    fn with_place(&self, a: Cost, i: usize, value: i64) -> Option<Cost> {
        places::with_place(a.into(), i, value).map(Cost::from)
    }
}
