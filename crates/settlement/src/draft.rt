//! A book that is being set up.
ghost use Rattle.std.specs.Prelude.{◌≤◌};

use crate::counts::Counts;

/// A draft takes points, and then its start.
#[derive(Drop)]
pub struct Draft<R> {
    pub(crate) rule: R,
    pub(crate) counts: Counts,
    pub(crate) points: u16,
    ghost few: { points ≤ 48 },
}
