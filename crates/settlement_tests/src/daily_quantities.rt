//! Daily quantities, their register, and the rows of points that they read.
use crate::brings::brings_all;
use crate::owner::Owner;
use crate::prints::{at, write};
use crate::small_book::{NO_PLACE, ONE_PLACE, SMALL, run, small_book};
use ledger::RunningRule;
use settlement::{Class, DailyQuantityTerms, Live, Point, Tables};
use std::process::Abort;
use std::test::Fail;

fn of(day: i64, point: i64, quantity: i64) -> DailyQuantityTerms {
    DailyQuantityTerms {
        day,
        point,
        quantity,
    }
}

#[test]
fn limits_of_daily_quantities(rt: HostRuntime) -> Result<(), Fail> {
    // each value in its place, and the last counts
    run(
        &rt,
        rt.alloc(),
        SMALL,
        &[
            (of(0, 1, 0), Ok(()), 0),
            (of(0, 1, 1_000_000), Ok(()), 0),
            (of(2, 2, 9), Ok(()), 1),
            (of(0, 1, 12), Ok(()), 0),
            (of(2, 2, 0), Ok(()), 1),
        ],
    )?;
    // one ground
    run(
        &rt,
        rt.alloc(),
        SMALL,
        &[
            (of(0, 1, -1), Err(6), 0),
            (of(0, 1, 1_000_001), Err(6), 0),
            (of(0, 1, i64::MIN), Err(6), 0),
            (of(0, 1, i64::MAX), Err(6), 0),
        ],
    )?;
    run(
        &rt,
        rt.alloc(),
        SMALL,
        &[
            (of(0, 0, 1), Err(7), 0),
            (of(0, 5, 1), Err(7), 0),
            (of(0, 48, 1), Err(7), 0),
            (of(0, 49, 1), Err(7), 0),
            (of(0, -1, 1), Err(7), 0),
            (of(0, 65_537, 1), Err(7), 0),
            (of(0, i64::MIN, 1), Err(7), 0),
        ],
    )?;
    run(
        &rt,
        rt.alloc(),
        SMALL,
        &[
            (of(-1, 1, 1), Err(9), 0),
            (of(3, 2, 1), Err(9), 0),
            (of(65_536, 1, 1), Err(9), 0),
            (of(i64::MAX, 1, 1), Err(9), 0),
        ],
    )?;
    run(
        &rt,
        rt.alloc(),
        SMALL,
        &[(of(0, 3, 1), Err(11), 0), (of(2, 4, 0), Err(11), 0)],
    )?;
    // several at once
    run(
        &rt,
        rt.alloc(),
        SMALL,
        &[
            (of(0, 5, -1), Err(6), 0),
            (of(3, 1, -1), Err(6), 0),
            (of(0, 3, 1_000_001), Err(6), 0),
            (of(3, 5, 1), Err(7), 0),
            (of(-1, 0, 1), Err(7), 0),
            (of(3, 3, 1), Err(9), 0),
            (of(-1, 4, 1), Err(9), 0),
            (of(3, 4, -1), Err(6), 0),
            (of(3, 5, -1), Err(6), 0),
        ],
    )
}

#[test]
fn register_of_daily_quantities(rt: HostRuntime) -> Result<(), Fail> {
    run(
        &rt,
        rt.alloc(),
        SMALL,
        &[
            (of(0, 1, 5), Ok(()), 0),
            (of(1, 2, 6), Ok(()), 1),
            (of(1, 1, 7), Err(12), 0),
            (of(0, 2, 7), Err(12), 0),
            (of(1, 2, 8), Ok(()), 1),
            (of(0, 1, 9), Ok(()), 0),
            (of(2, 1, -1), Err(6), 0),
            (of(2, 5, 1), Err(7), 0),
            (of(3, 1, 1), Err(9), 0),
            (of(2, 3, 1), Err(11), 0),
        ],
    )?;
    run(
        &rt,
        rt.alloc(),
        ONE_PLACE,
        &[
            (of(2, 2, 5), Ok(()), 0),
            (of(2, 2, 5), Ok(()), 0),
            (of(2, 2, 1_000_000), Ok(()), 0),
            (of(2, 2, 1), Ok(()), 0),
            (of(2, 1, 1), Err(12), 0),
            (of(2, 2, 2), Ok(()), 0),
        ],
    )?;
    run(
        &rt,
        rt.alloc(),
        NO_PLACE,
        &[
            (of(0, 1, 1), Err(12), 0),
            (of(0, 1, -1), Err(6), 0),
            (of(0, 5, 1), Err(7), 0),
            (of(3, 1, 1), Err(9), 0),
            (of(0, 3, 1), Err(11), 0),
        ],
    )
}

/// A point's row, written from outside.
fn point(zone: u16, user: u16, band: u16, aq: u64, index: u64) -> Point {
    Point {
        zone,
        user,
        class: Class::Two,
        band,
        aq,
        first_index: index,
        covered: 0,
        last_index: index,
    }
}

/// What is answered for point 2 while its row holds this: 5 also where the value, the Day or the place would be refused.
fn with_row(rt: &impl Abort, live: &mut Live<RunningRule>, t: &mut Tables<'_>, row: Option<Point>) {
    let old = at(t.points, 1);
    write(t.points, 1, Some(row));
    brings_all(
        rt,
        live,
        t,
        &[
            (of(0, 2, 1), Err(5), 0),
            (of(0, 2, -1), Err(5), 0),
            (of(3, 2, 1), Err(5), 0),
            (of(0, 1, 1), Ok(()), 0),
            (of(0, 5, 1), Err(7), 0),
            (of(0, 5, -1), Err(6), 0),
        ],
    );
    write(t.points, 1, old);
}

#[test]
fn spoilt_points(rt: HostRuntime) -> Result<(), Fail> {
    let mut owner = Owner::empty(rt.alloc(), ONE_PLACE)?;
    let mut t = owner.tables();
    let mut live = small_book(&rt, &mut t)?;
    // what stands past the last point is not read
    write(t.points, 4, Some(Some(point(9, 0, 0, u64::MAX, 0))));
    for row in [
        None,
        Some(point(9, 2, 5, 1, 1)),
        Some(point(3, 2, 5, 1, 1)),
        Some(point(0, 2, 5, 1, 1)),
        Some(point(2, 0, 5, 1, 1)),
        Some(point(2, 5, 5, 1, 1)),
        Some(point(2, 2, 0, 1, 1)),
        Some(point(2, 2, 10, 1, 1)),
        Some(point(2, 2, 5, 300_000_001, 1)),
        Some(point(2, 2, 5, u64::MAX, 1)),
        Some(point(2, 2, 5, 1, 1_000_000)),
        Some(Point {
            covered: 4,
            ..point(2, 2, 5, 1, 1)
        }),
    ] {
        with_row(&rt, &mut live, &mut t, row);
    }
    // at its limits a row is read; place 0 holds point 1 of Day 0
    for row in [point(1, 1, 1, 0, 0), point(2, 4, 9, 300_000_000, 999_999)] {
        write(t.points, 1, Some(Some(row)));
        brings_all(
            &rt,
            &mut live,
            &mut t,
            &[
                (of(0, 2, 1), Err(12), 0),
                (of(0, 2, -1), Err(6), 0),
                (of(3, 2, 1), Err(9), 0),
            ],
        );
    }
    Ok(())
}
