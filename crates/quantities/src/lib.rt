//! Quantities of gas: what a user's share of a measured quantity is, by any share rule.
#![tactic(auto)]

ghost use Rattle.std.specs.Prelude.{◌≡◌, ℕ, ◌≤◌, length, take, unsigned_abs};
ghost use Rattle.ledger.specs.Grounds.{on_ok};
ghost use Rattle.ledger.specs.Laws.{most_total, nothing_to_share_by, sumℤ};
ghost use Rattle.ledger.specs.Sharing.{outcome, unless_refused};
ghost use Rattle.quantities.specs.Figures.{WorkedFigures};

use ledger::{ShareFault, ShareRule};

/// Shares a quantity among users, and adds the users' column up again: whichever the rule, the sum is the quantity.
pub fn share_and_add<R: ShareRule>(
    rule: &R,
    quantity: i64,
    weights: &[u64],
    column: &mut [i64],
) -> Result<i64, ShareFault>
    ensures answer { result ≡ unless_refused nothing_to_share_by quantity weights.now (length column.old) quantity }
    ensures left { column.new ≡ on_ok (outcome (R.ShareRule.refuses rule.now) (R.ShareRule.shares rule.now) quantity weights.now (length column.old)) (λ given. given) column.old }
{
    rule.share(quantity, weights, column)?;
    Ok(add_up(column))
}

/// The sum of a column whose sums stay small on the way.
fn add_up(column: &[i64]) -> i64
    requires { (n : ℕ) → unsigned_abs (sumℤ (take n column.now)) ≤ most_total }
    ensures { result ≡ sumℤ column.now }
{
    column.iter().copied().sum()
}

/// The worked figures follow from the definitions.
pub fn worked_figures()
    ensures { WorkedFigures }
{}
