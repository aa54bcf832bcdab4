//! Points, and the start.
use crate::brings::brings;
use crate::owner::{Lengths, Owner};
use crate::prints::print;
use crate::small_book::{SMALL, draft, point};
use ledger::RunningRule;
use settlement::{
    DailyQuantityTerms, Draft, EntryMeasurementTerms, Fault, Live, PointTerms, Tables,
};
use std::process::Abort;
use std::test::Fail;

/// The small book's tables, with room past the 48th point.
const LONGER: Lengths = [50, 9, 6, 6, 27, 36, 144, 144, 24, 12, 8, 0, 0, 0, 0];

#[test]
fn classes(rt: HostRuntime) -> Result<(), Fail> {
    let mut owner = Owner::empty(rt.alloc(), SMALL)?;
    let mut t = owner.tables();
    let mut draft = draft(&mut t)?;
    for (class, least_days, row) in [
        (1, 0, 0),
        (2, 0, 1),
        (3, 1, 2),
        (4, 7, 3),
        (4, 14, 4),
        (4, 25, 5),
    ] {
        brings(
            &rt,
            &mut draft,
            &mut t,
            point(2, 4, class, least_days),
            Ok(()),
            row,
        );
    }
    for (class, least_days) in [
        (1, 1),
        (1, 7),
        (2, 1),
        (2, -1),
        (3, 0),
        (3, 7),
        (3, 2),
        (4, 0),
        (4, 1),
        (4, 6),
        (4, 8),
        (4, 13),
        (4, 15),
        (4, 24),
        (4, 26),
        (4, -7),
        (0, 0),
        (5, 0),
        (5, 7),
        (-1, 0),
        (257, 0),
        (i64::MIN, 0),
        (4, i64::MAX),
    ] {
        brings(
            &rt,
            &mut draft,
            &mut t,
            point(2, 4, class, least_days),
            Err(6),
            6,
        );
    }
    Ok(())
}

#[test]
fn limits_of_points(rt: HostRuntime) -> Result<(), Fail> {
    let mut owner = Owner::empty(rt.alloc(), SMALL)?;
    let mut t = owner.tables();
    let mut draft = draft(&mut t)?;
    for (zone, user, band, aq, index, row) in [
        (1, 1, 1, 0, 0, 0),
        (2, 4, 9, 300_000_000, 999_999, 1),
        (1, 4, 5, 12, 34, 2),
        (1, 4, 5, 12, 34, 3),
    ] {
        brings(
            &rt,
            &mut draft,
            &mut t,
            PointTerms {
                band,
                aq,
                index,
                ..point(zone, user, 1, 0)
            },
            Ok(()),
            row,
        );
    }
    for (zone, user, band, aq, index, answer) in [
        (1, 1, 0, 1, 1, Err(6)),
        (1, 1, 10, 1, 1, Err(6)),
        (1, 1, -1, 1, 1, Err(6)),
        (1, 1, 65_537, 1, 1, Err(6)),
        (1, 1, 1, -1, 1, Err(6)),
        (1, 1, 1, 300_000_001, 1, Err(6)),
        (1, 1, 1, i64::MIN, 1, Err(6)),
        (1, 1, 1, 1, -1, Err(6)),
        (1, 1, 1, 1, 1_000_000, Err(6)),
        (1, 1, 1, 1, i64::MAX, Err(6)),
        (0, 1, 1, 1, 1, Err(7)),
        (3, 1, 1, 1, 1, Err(7)),
        (-1, 1, 1, 1, 1, Err(7)),
        (65_537, 1, 1, 1, 1, Err(7)),
        (1, 0, 1, 1, 1, Err(7)),
        (1, 5, 1, 1, 1, Err(7)),
        (1, -1, 1, 1, 1, Err(7)),
        (1, 65_537, 1, 1, 1, Err(7)),
        (0, 1, 0, 1, 1, Err(6)),
        (1, 5, 1, -1, 1, Err(6)),
        (3, 5, 1, 1, 1_000_000, Err(6)),
        (3, 5, 1, 1, 1, Err(7)),
    ] {
        brings(
            &rt,
            &mut draft,
            &mut t,
            PointTerms {
                band,
                aq,
                index,
                ..point(zone, user, 1, 0)
            },
            answer,
            4,
        );
    }
    // a class that is none, in a zone and for a user that are none
    brings(&rt, &mut draft, &mut t, point(3, 1, 3, 0), Err(6), 4);
    brings(&rt, &mut draft, &mut t, point(1, 5, 3, 0), Err(6), 4);
    Ok(())
}

#[test]
fn forty_eight_points(rt: HostRuntime) -> Result<(), Fail> {
    let mut owner = Owner::empty(rt.alloc(), LONGER)?;
    let mut t = owner.tables();
    let mut draft = draft(&mut t)?;
    // the point's row, and not a place in a list
    for row in 0..48 {
        brings(&rt, &mut draft, &mut t, point(1, 1, 1, 0), Ok(()), row);
    }
    for (zone, user, least_days, answer) in [
        (1, 1, 0, Err(13)),
        (1, 1, 1, Err(6)),
        (3, 1, 0, Err(7)),
        (1, 0, 0, Err(7)),
        (3, 1, 1, Err(6)),
        (2, 4, 0, Err(13)),
    ] {
        brings(
            &rt,
            &mut draft,
            &mut t,
            point(zone, user, 1, least_days),
            answer,
            48,
        );
    }
    let live = draft.start(&t).map_err(|_| Fail::new("not started"))?;
    let measured = EntryMeasurementTerms {
        day: 2,
        entry: 3,
        quantity: 1,
    };
    assert!(rt; live.measure_entry(&mut t, measured).is_ok());
    Ok(())
}

/// The draft that comes back from a start that is refused with this number.
fn not_started(
    rt: &impl Abort,
    draft: Draft<RunningRule>,
    t: &Tables<'_>,
    number: u8,
) -> Result<Draft<RunningRule>, Fail> {
    let before = print(t);
    let (back, fault) = draft.start(t).err().ok_or_else(|| Fail::new("started"))?;
    assert_eq!(rt; fault.number(), number);
    assert_eq!(rt; print(t), before);
    Ok(back)
}

fn started(
    rt: &impl Abort,
    draft: Draft<RunningRule>,
    t: &Tables<'_>,
) -> Result<Live<RunningRule>, Fail> {
    let before = print(t);
    let live = draft.start(t).map_err(|_| Fail::new("not started"))?;
    assert_eq!(rt; print(t), before);
    Ok(live)
}

#[test]
fn no_start_without_a_point(rt: HostRuntime) -> Result<(), Fail> {
    let mut owner = Owner::empty(rt.alloc(), SMALL)?;
    let mut t = owner.tables();
    let mut other = Owner::empty(
        rt.alloc(),
        [47, 9, 6, 6, 27, 36, 144, 144, 24, 12, 8, 0, 2, 2, 2],
    )?;
    let short = other.tables();
    let first = draft(&mut t)?;
    let second = not_started(&rt, first, &t, 14)?;
    let mut third = not_started(&rt, second, &short, 5)?;
    // a refused point is no point
    brings(&rt, &mut third, &mut t, point(3, 1, 1, 0), Err(7), 0);
    let mut fourth = not_started(&rt, third, &t, 14)?;
    brings(&rt, &mut fourth, &mut t, point(1, 1, 1, 0), Ok(()), 0);
    let mut fifth = not_started(&rt, fourth, &short, 5)?;
    brings(&rt, &mut fifth, &mut t, point(2, 2, 2, 0), Ok(()), 1);
    let live = started(&rt, fifth, &t)?;
    // both points are in the book, and no third
    for (point, answer) in [(1, Ok(())), (2, Ok(())), (3, Err(7))] {
        let taken = DailyQuantityTerms {
            day: 0,
            point,
            quantity: 1,
        };
        assert_eq!(rt;
            live.daily_quantity(&mut t, taken).map_err(Fault::number),
            answer
        );
    }
    Ok(())
}
