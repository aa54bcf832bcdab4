//! Rules that divide a signed total among weights: the interface, its laws and its refusals.
ghost use Rattle.std.specs.Prelude.{◌≡◌, ℕ, ◌^◌, ◌<◌, Bool, ◌&&◌, List, length, ℤ, if◌then◌else◌, Some, None, sum, ◌==◌, nat_le};
ghost use Rattle.ledger.specs.Laws.{OneShareEach, RefusesOnlyWithoutWeight, SharesAddUp, SharesAreProportional, SharesKeepTheirSide, in_limits, most_weight_sum, nothing_to_share_by};
ghost use Rattle.ledger.specs.Sharing.{OneOutcome, Shared, layer_of, number_of, unless_refused};
ghost use Rattle.ledger.specs.Signs.{signed};

use crate::layer::Layer;

/// The largest total, either way.
const MAX_TOTAL: u64 = 50_000_000;

const MAX_WEIGHTS: usize = 400;

/// The largest sum of weights. With the largest total, their product fits 64 bits.
const MAX_WEIGHT_SUM: u64 = 87_840_000_000;

/// Why a total is not shared.
#[derive(Clone, Copy, Debug, PartialEq, Eq)]
pub enum ShareFault {
    /// The total, the number of weights or their sum is outside its limits, or there is not one place for each share.
    OutsideLimits,
    /// The weights add up to nothing, and the total is not nothing.
    NothingToShareBy,
}

impl ShareFault {
    /// The refusal's number.
    pub fn number(self) -> u8
        ensures { result ≡ number_of self }
    {
        match self {
            ShareFault::OutsideLimits => 6,
            ShareFault::NothingToShareBy => 20,
        }
    }

    /// The layer that refuses.
    pub fn layer(self) -> Layer
        ensures { result ≡ layer_of self }
    {
        match self {
            ShareFault::OutsideLimits => Layer::Book,
            ShareFault::NothingToShareBy => Layer::Rule,
        }
    }
}

/// A rule by its meaning: what it refuses, and otherwise the shares that it gives.
pub trait ShareRule {
    ghost refuses: { Self → ℤ → List ℕ → Bool };

    ghost shares: { Self → ℤ → List ℕ → List ℤ };

    /// Writes the shares of the total, one for each weight, or refuses and leaves `out` as it was.
    fn share(&self, total: i64, weights: &[u64], out: &mut [i64]) -> Result<(), ShareFault>
        ensures { Shared (refuses self.now) (shares self.now) total weights.now out.old out.new result };

    ghost one_share_each: { (rule : Self) → OneShareEach (refuses rule) (shares rule) };

    ghost shares_add_up: { (rule : Self) → SharesAddUp (refuses rule) (shares rule) };

    ghost shares_are_proportional: { (rule : Self) → SharesAreProportional (refuses rule) (shares rule) };

    ghost shares_keep_their_side: { (rule : Self) → SharesKeepTheirSide (refuses rule) (shares rule) };

    ghost refuses_only_without_weight: { (rule : Self) → RefusesOnlyWithoutWeight (refuses rule) (shares rule) };
}

/// The contract of `share` leaves no choice: it pins the answer and the slice.
pub fn one_outcome()
    ensures { OneOutcome }
{}

/// The weights' sum, unless it passes the limit.
fn limited_sum(weights: &[u64]) -> Option<u64>
    ensures { result ≡ (if nat_le (sum weights.now) most_weight_sum then Some (sum weights.now) else None) }
{
    let mut sum = 0;
    for w in weights {
        if *w > MAX_WEIGHT_SUM - sum {
            return None;
        }
        sum += *w;
    }
    Some(sum)
}

/// The weights' sum, where all is within the limits and there is a place for each share.
// What `share` is given goes on as it came: the interface of a rule takes the three apart.
fn sum_in_limits(total: i64, weights: &[u64], places: usize) -> Option<u64>
    ensures { result ≡ (if in_limits total weights.now && places == length weights.now then Some (sum weights.now) else None) }
{
    if total.unsigned_abs() > MAX_TOTAL {
        return None;
    }
    if weights.is_empty() || weights.len() > MAX_WEIGHTS || places != weights.len() {
        return None;
    }
    limited_sum(weights)
}

/// What both rules test first: the weights' sum, or the first ground met.
pub(crate) fn accept(total: i64, weights: &[u64], places: usize) -> Result<u64, ShareFault>
    ensures { result ≡ unless_refused nothing_to_share_by total weights.now places (sum weights.now) }
{
    let sum = sum_in_limits(total, weights, places).ok_or(ShareFault::OutsideLimits)?;
    if sum == 0 && total != 0 {
        return Err(ShareFault::NothingToShareBy);
    }
    Ok(sum)
}

/// A size with the sign of a total.
pub(crate) fn with_sign(of: i64, size: u64) -> i64
    requires { size < 2 ^ 63 }
    ensures { result ≡ signed of size }
{
    if of < 0 { -(size as i64) } else { size as i64 }
}
