//! A started book.
ghost use Rattle.std.specs.Prelude.{◌≤◌};

use crate::counts::Counts;

/// A live book takes everything but points.
#[derive(Drop)]
pub struct Live<R> {
    pub(crate) rule: R,
    pub(crate) counts: Counts,
    pub(crate) points: u16,
    /// Days 0 to `closed` - 1 are closed.
    pub(crate) closed: u16,
    pub(crate) closed_months: u16,
    /// The slips in hand.
    pub(crate) slips: u16,
    ghost few: { (1 ≤ points) × (points ≤ 48) },
    ghost left: { closed ≤ counts.days },
    ghost hand: { slips ≤ 32 },
}
