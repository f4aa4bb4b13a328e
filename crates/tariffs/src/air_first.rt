// The air-first tariff: dark seconds in the first place and cents in the second; the first place decides.
ghost use Rattle.std.specs.Prelude.{◌≡◌, [], ◌∷◌, refl};
ghost use Rattle.tariffs.specs.AirFirst.{air_first_scale};
ghost use Rattle.std.proofs.Common.{arith, lit≤, rules};
ghost use Rattle.std.proofs.lemmas.Int.{ints};
ghost use Rattle.tariffs.specs.OrdersLemmas.{first_total, first_trans, first_shift};

use crate::THOUSAND;
use interface::places;
use interface::plant::Bill;
use interface::tariff::Tariff;

// An amount of two places, in thousandths of a second and of a cent: a second is 1,000 in the first, a cent 1,000 in the second.
// An amount is at most another as its fields are compared in this order.
#[derive(Clone, Copy, PartialEq, Eq, PartialOrd, Ord, Debug)]
pub struct DarkThenCost {
    pub dark: i64,
    pub cost: i64,
}

// The places in an array, for the arithmetic that all amounts share.
impl From<[i64; 2]> for DarkThenCost {
    ghost from_gives = { λ xs a. a.dark ∷ a.cost ∷ [] ≡ xs };

    fn from(places: [i64; 2]) -> DarkThenCost {
        let [dark, cost] = places;
        DarkThenCost { dark, cost }
    }
}

impl From<DarkThenCost> for [i64; 2] {
    ghost from_gives = { λ a xs. xs ≡ a.dark ∷ a.cost ∷ [] };

    fn from(a: DarkThenCost) -> [i64; 2] {
        [a.dark, a.cost]
    }
}

#[derive(Clone, Copy, PartialEq, Eq, Debug)]
pub struct AirFirst;

impl Tariff for AirFirst {
    type Amount = DarkThenCost;

    const PLACES: usize = 2;

    ghost PLACES = { 2 };

    ghost scale = { λ _. air_first_scale };

    ghost row = { λ a. a.dark ∷ a.cost ∷ [] };

    ghost lawful = { λ t.
        record {
          some_places = lit≤ tt;
          few_places = lit≤ tt;
          second_fits = refl;
          cent_fits = refl;
          bounded = λ b l. omega (arith, ints, l.dark, l.paid);
          transitive = λ u v w _ _ _. first_trans u v w;
          total = λ u v _ _. first_total u v;
          shift = λ u v w p q r. first_shift _ u v w p q r;
          cent_counts = refl;
          second_counts = refl;
        } };

    ghost places = { λ _. refl };

    ghost fits = { Prim.search rules };

    fn zero(&self) -> DarkThenCost {
        DarkThenCost { dark: 0, cost: 0 }
    }

    fn price(&self, bill: Bill) -> Option<DarkThenCost> {
        if !bill.lawful() {
            return None;
        }
        Some(DarkThenCost {
            dark: i64::from(bill.seconds) * THOUSAND,
            cost: i64::from(bill.cents) * THOUSAND,
        })
    }

    fn at_most(&self, a: DarkThenCost, b: DarkThenCost) -> bool {
        a <= b
    }

    // The interface has no body for these: an array's length cannot be a trait's constant, as a const parameter of the trait it
    // would stand in every bound, and an associated type of arrays with two conversions and their law would be asked of every
    // tariff, also of one whose amount has no array. What they share is in places.
    fn sum(&self, a: DarkThenCost, b: DarkThenCost) -> Option<DarkThenCost> {
        places::sum(a.into(), b.into()).map(DarkThenCost::from)
    }

    fn difference(&self, a: DarkThenCost, b: DarkThenCost) -> Option<DarkThenCost> {
        places::difference(a.into(), b.into()).map(DarkThenCost::from)
    }

    fn multiple(&self, factor: u32, a: DarkThenCost) -> Option<DarkThenCost> {
        places::multiple(factor, a.into()).map(DarkThenCost::from)
    }

    fn share(&self, a: DarkThenCost) -> DarkThenCost {
        DarkThenCost::from(places::share(a.into()))
    }

    fn reach(&self, a: DarkThenCost) -> u64 {
        places::reach(a.into())
    }

    fn place(&self, a: DarkThenCost, i: usize) -> Option<i64> {
        places::place(a.into(), i)
    }

    fn with_place(&self, a: DarkThenCost, i: usize, value: i64) -> Option<DarkThenCost> {
        places::with_place(a.into(), i, value).map(DarkThenCost::from)
    }
}
