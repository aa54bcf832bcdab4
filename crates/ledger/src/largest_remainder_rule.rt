//! The largest-remainder rule.
ghost use Rattle.std.specs.Prelude.{◌≡◌, ◌-◌, ◌<◌, ◌≤◌, length, sum, count_by, nat_le, slice_index, take, drop};
ghost use Rattle.ledger.specs.Largest.{Small, floors, largest, portions, remainders};
ghost use Rattle.ledger.specs.Laws.{nothing_to_share_by};
ghost use Rattle.ledger.specs.LargestLemmas.{largest_lawful};

use crate::rule::{ShareFault, ShareRule, accept, with_sign};

/// Each row gets its part rounded down, and the rows of largest remainder one unit more; of equal remainders the earlier row's goes first.
#[derive(Clone, Copy, Debug, PartialEq, Eq)]
pub struct LargestRemainderRule;

impl ShareRule for LargestRemainderRule {
    ghost refuses = { λ _. nothing_to_share_by };

    ghost shares = { λ _. largest };

    ghost one_share_each = { λ _. largest_lawful.one_share_each };

    ghost shares_add_up = { λ _. largest_lawful.shares_add_up };

    ghost shares_are_proportional = { λ _. largest_lawful.shares_are_proportional };

    ghost shares_keep_their_side = { λ _. largest_lawful.shares_keep_their_side };

    ghost refuses_only_without_weight = { λ _. largest_lawful.refuses_only_without_weight };

    fn share(&self, total: i64, weights: &[u64], out: &mut [i64]) -> Result<(), ShareFault> {
        let sum = accept(total, weights, out.len())?;
        let division = Division {
            size: total.unsigned_abs(),
            divisor: sum.max(1),
            weights,
        };
        let left = division.left();
        for (i, place) in out.iter_mut().enumerate() {
            *place = with_sign(total, division.portion(left, i));
        }
        Ok(())
    }
}

/// A size that is divided among rows: a row's part is size × weight / divisor.
#[derive(Clone, Copy, Debug, PartialEq, Eq)]
struct Division<'w> {
    size: u64,
    divisor: u64,
    weights: &'w [u64],
    ghost small: { Small size divisor weights.now },
    ghost enough: { sum (floors size divisor weights.now) ≤ size },
}

impl<'w> Division<'w> {
    /// What the rows' parts, each rounded down, leave of the size.
    fn left(&self) -> u64
        ensures { result ≡ self.now.size - sum (floors self.now.size self.now.divisor self.now.weights.now) }
    {
        // A chain has to show that the product of each weight fits, which did not close: the loop shows it.
        let mut given = 0;
        for weight in self.weights {
            given += self.size * *weight / self.divisor;
        }
        self.size - given
    }

    /// The same division of the first rows only.
    fn before(&self, i: usize) -> Division<'w>
        requires { i ≤ length self.now.weights.now }
        ensures same { (result.size ≡ self.now.size) × (result.divisor ≡ self.now.divisor) }
        ensures rows { result.weights.now ≡ take i self.now.weights.now }
    {
        Division {
            size: self.size,
            divisor: self.divisor,
            weights: &self.weights[..i],
        }
    }

    /// The same division without the first rows.
    fn from(&self, i: usize) -> Division<'w>
        requires { i ≤ length self.now.weights.now }
        ensures same { (result.size ≡ self.now.size) × (result.divisor ≡ self.now.divisor) }
        ensures rows { result.weights.now ≡ drop i self.now.weights.now }
    {
        Division {
            size: self.size,
            divisor: self.divisor,
            weights: &self.weights[i..],
        }
    }

    /// How many of the rows leave a remainder of at least `bar`.
    fn rows_from(&self, bar: u64) -> usize
        ensures { result ≡ count_by (λ s. nat_le bar s) (remainders self.now.size self.now.divisor self.now.weights.now) }
    {
        // A chain has to show that the product of each weight fits, which did not close: the loop shows it.
        let mut rows = 0;
        for weight in self.weights {
            if self.size * *weight % self.divisor >= bar {
                rows += 1;
            }
        }
        rows
    }

    /// What the row `i` gets, where the floors leave `left` units: one of these, if fewer rows are ahead of it.
    fn portion(&self, left: u64, i: usize) -> u64
        requires rest { left ≡ self.now.size - sum (floors self.now.size self.now.divisor self.now.weights.now) }
        requires within { i < length self.now.weights.now }
        ensures { result ≡ slice_index (portions self.now.size self.now.divisor self.now.weights.now) i }
    {
        let product = self.size * self.weights[i];
        let bar = product % self.divisor;
        let earlier = self.before(i).rows_from(bar);
        let later = self.from(i + 1).rows_from(bar + 1);
        if ((earlier + later) as u64) < left {
            product / self.divisor + 1
        } else {
            product / self.divisor
        }
    }
}
