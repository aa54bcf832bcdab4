//! A small book, and records that it is brought.
use crate::brings::{Answer, Brought, brings_all};
use crate::owner::{Lengths, Owner, terms};
use ledger::RunningRule;
use settlement::{Draft, Live, PointTerms, Tables};
use std::alloc::Global;
use std::process::Abort;
use std::test::Fail;

/// 3 Days, 4 users, 3 entry points, 2 zones, no whole month; two places in each register.
pub(crate) const SMALL: Lengths = [48, 9, 6, 6, 27, 36, 144, 144, 24, 12, 8, 0, 2, 2, 2];

/// The same with one place in each register.
pub(crate) const ONE_PLACE: Lengths = [48, 9, 6, 6, 27, 36, 144, 144, 24, 12, 8, 0, 1, 1, 1];

/// The same with no place in a register.
pub(crate) const NO_PLACE: Lengths = [48, 9, 6, 6, 27, 36, 144, 144, 24, 12, 8, 0, 0, 0, 0];

pub(crate) fn point(zone: i64, user: i64, class: i64, least_days: i64) -> PointTerms {
    PointTerms {
        zone,
        user,
        class,
        least_days,
        band: 5,
        aq: 1_000,
        index: 100,
    }
}

pub(crate) fn draft(t: &mut Tables<'_>) -> Result<Draft<RunningRule>, Fail> {
    Draft::new(RunningRule, t, terms(2023, 2, 3, 4, 3, 2)).map_err(|_| Fail::new("no draft"))
}

/// Points 1 to 4 of classes 1 to 4, and the start.
pub(crate) fn small_book(rt: &impl Abort, t: &mut Tables<'_>) -> Result<Live<RunningRule>, Fail> {
    let mut draft = draft(t)?;
    for (zone, user, class, least_days) in [
        (1, 1, 1, 0),
        (2, 2, 2, 0),
        (1, 3, 3, 1),
        (2, 4, 4, 7),
    ] {
        assert!(rt; draft.point(t, point(zone, user, class, least_days)).is_ok());
    }
    draft.start(t).map_err(|_| Fail::new("not started"))
}

/// Brings records to a new small book over tables of these lengths.
pub(crate) fn run<B: Brought<Book = Live<RunningRule>>>(
    rt: &impl Abort,
    heap: Global,
    lengths: Lengths,
    rows: &[(B, Answer, usize)],
) -> Result<(), Fail> {
    let mut owner = Owner::empty(heap, lengths)?;
    let mut t = owner.tables();
    let mut live = small_book(rt, &mut t)?;
    brings_all(rt, &mut live, &mut t, rows);
    Ok(())
}
