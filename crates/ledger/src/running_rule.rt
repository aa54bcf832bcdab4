//! The running rule.
ghost use Rattle.ledger.specs.Laws.{nothing_to_share_by};
ghost use Rattle.ledger.specs.Running.{running};
ghost use Rattle.ledger.specs.RunningLemmas.{running_lawful};

use crate::rule::{ShareFault, ShareRule, accept, with_sign};

/// Each row gets what the total's part up to it grows by.
#[derive(Clone, Copy, Debug, PartialEq, Eq)]
pub struct RunningRule;

impl ShareRule for RunningRule {
    ghost refuses = { λ _. nothing_to_share_by };

    ghost shares = { λ _. running };

    ghost one_share_each = { λ _. running_lawful.one_share_each };

    ghost shares_add_up = { λ _. running_lawful.shares_add_up };

    ghost shares_are_proportional = { λ _. running_lawful.shares_are_proportional };

    ghost shares_keep_their_side = { λ _. running_lawful.shares_keep_their_side };

    ghost refuses_only_without_weight = { λ _. running_lawful.refuses_only_without_weight };

    fn share(&self, total: i64, weights: &[u64], out: &mut [i64]) -> Result<(), ShareFault> {
        let sum = accept(total, weights, out.len())?;
        let size = total.unsigned_abs();
        let divisor = sum.max(1);
        let mut reached = 0;
        let mut given = 0;
        // The row's place in `out` is written by its number: what a `zip` with `iter_mut` leaves behind is not known.
        for (i, weight) in weights.iter().enumerate() {
            reached += *weight;
            let upto = size * reached / divisor;
            out[i] = with_sign(total, upto - given);
            given = upto;
        }
        Ok(())
    }
}
