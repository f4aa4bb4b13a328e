// A tariff of three places whose order is the sum of the places.
ghost use Rattle.std.specs.Prelude.{◌≡◌, [], ◌∷◌, refl};
ghost use Rattle.newcomer.specs.Basket.{basket_scale, contents};
ghost use Rattle.std.proofs.Common.{arith, lit≤, rules};
ghost use Rattle.std.proofs.lemmas.Int.{ints};
ghost use Rattle.newcomer.specs.Sums.{sum_total, sum_trans, sum_shift};

use interface::places;
use interface::plant::Bill;
use interface::tariff::Tariff;

// What a second and a cent are worth in their own places, and what a second costs in fees.
const WORTH: i64 = 1000;

const FEE: i64 = 7;

#[derive(Clone, Copy, PartialEq, Eq, Debug)]
pub struct Basket {
    pub seconds: i64,
    pub cents: i64,
    pub fees: i64,
}

// The places in an array, for the arithmetic that all amounts share.
impl From<[i64; 3]> for Basket {
    ghost from_gives = { λ xs a. a.seconds ∷ a.cents ∷ a.fees ∷ [] ≡ xs };

    fn from(places: [i64; 3]) -> Basket {
        let [seconds, cents, fees] = places;
        Basket {
            seconds,
            cents,
            fees,
        }
    }
}

impl From<Basket> for [i64; 3] {
    ghost from_gives = { λ a xs. xs ≡ a.seconds ∷ a.cents ∷ a.fees ∷ [] };

    fn from(a: Basket) -> [i64; 3] {
        [a.seconds, a.cents, a.fees]
    }
}

// The tariff itself has no numbers of its own.
#[derive(Clone, Copy)]
pub struct ByBasket;

// The sum of the places.
fn contents(a: Basket) -> i128
    ensures { result ≡ contents (a.seconds ∷ a.cents ∷ a.fees ∷ []) }
{
    i128::from(a.seconds) + i128::from(a.cents) + i128::from(a.fees)
}

impl Tariff for ByBasket {
    type Amount = Basket;

    const PLACES: usize = 3;

    ghost PLACES = { 3 };

    ghost scale = { λ _. basket_scale };

    ghost row = { λ a. a.seconds ∷ a.cents ∷ a.fees ∷ [] };

    ghost lawful = { λ t.
        record {
          some_places = lit≤ tt;
          few_places = lit≤ tt;
          second_fits = refl;
          cent_fits = refl;
          bounded = λ b l. omega (arith, ints, l.dark, l.paid);
          transitive = λ u v w _ _ _. sum_trans u v w;
          total = λ u v _ _. sum_total u v;
          shift = λ u v w p q r. sum_shift _ u v w p q r;
          cent_counts = refl;
          second_counts = refl;
        } };

    ghost places = { λ _. refl };

    ghost fits = { Prim.search rules };

    fn zero(&self) -> Basket {
        Basket {
            seconds: 0,
            cents: 0,
            fees: 0,
        }
    }

    fn price(&self, bill: Bill) -> Option<Basket> {
        if !bill.lawful() {
            return None;
        }
        Some(Basket {
            seconds: i64::from(bill.seconds) * WORTH,
            cents: i64::from(bill.cents) * WORTH,
            fees: i64::from(bill.seconds) * FEE,
        })
    }

    // By contents, which is a sum: no derive gives this order.
    fn at_most(&self, a: Basket, b: Basket) -> bool {
        contents(a) <= contents(b)
    }

    // The interface has no body for these: an array's length cannot be a trait's constant, as a const parameter of the trait it
    // would stand in every bound, and an associated type of arrays with two conversions and their law would be asked of every
    // tariff, also of one whose amount has no array. What they share is in places.
    fn sum(&self, a: Basket, b: Basket) -> Option<Basket> {
        places::sum(a.into(), b.into()).map(Basket::from)
    }

    fn difference(&self, a: Basket, b: Basket) -> Option<Basket> {
        places::difference(a.into(), b.into()).map(Basket::from)
    }

    fn multiple(&self, factor: u32, a: Basket) -> Option<Basket> {
        places::multiple(factor, a.into()).map(Basket::from)
    }

    fn share(&self, a: Basket) -> Basket {
        Basket::from(places::share(a.into()))
    }

    fn reach(&self, a: Basket) -> u64 {
        places::reach(a.into())
    }

    fn place(&self, a: Basket, i: usize) -> Option<i64> {
        places::place(a.into(), i)
    }

    fn with_place(&self, a: Basket, i: usize, value: i64) -> Option<Basket> {
        places::with_place(a.into(), i, value).map(Basket::from)
    }
}
