// The check of a certificate that is to be followed.
ghost use Rattle.std.specs.Prelude.{◌↔◌, ℕ, map, IsOk, IfOk};
ghost use Rattle.certificate.specs.Certificates.{Sound};
ghost use Rattle.certificate.specs.Findings.{Verdict};
ghost use Rattle.certificate.specs.RefusedAs.{RefusedAs, IsRefused};
ghost use Rattle.following.specs.Promises.{Promised};

use certificate::check::check;
use certificate::finding::Finding;
use certificate::refusal::Refusal;
use interface::claims::Claims;
use interface::plant::Plant;
use interface::tariff::Tariff;

/// Checks a certificate. Accepted, it promises what its policy costs every book that follows it,
/// against whatever else can be played as long.
pub fn accept<P: Plant, T: Tariff>(
    plant: &P,
    tariff: &T,
    values: &[T::Amount],
    policy: &[u16],
    claims: Claims<T::Amount>,
) -> Result<Finding<T::Amount>, Refusal>
    ensures verdict { Verdict T.Tariff.row (P.model plant.now) (T.scale tariff.now)
        (map T.Tariff.row values.now) policy.now claims.low claims.high result }
    // accepted exactly when sound
    ensures exact { IsOk result
        ↔ Sound (P.model plant.now) (T.scale tariff.now) (map T.Tariff.row values.now) policy.now
        (T.Tariff.row claims.low) (T.Tariff.row claims.high) }
    // refused by a rule at a place exactly when that rule is broken there, and none before it
    ensures refused { (n p : ℕ) → IsRefused result n p
        ↔ RefusedAs (P.model plant.now) (T.scale tariff.now) (map T.Tariff.row values.now)
        policy.now (T.Tariff.row claims.low) (T.Tariff.row claims.high) n p }
    // accepted, it bounds the cost of every book that follows it
    ensures promise { IfOk result
        (Promised T.Tariff.row (P.model plant.now) (T.scale tariff.now) policy.now) }
{
    check(plant, tariff, values, policy, claims)
}
