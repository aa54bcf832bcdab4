//! New books: both sides of each limit, short tables, and tables that were full of other things.
use crate::brings::Answer;
use crate::owner::{Lengths, Owner, terms};
use crate::prints::print;
use ledger::RunningRule;
use settlement::{BookTerms, Draft, Fault};
use std::alloc::Global;
use std::process::Abort;
use std::test::Fail;

/// 400 Days from December 2099 on, 16 users, 8 entry points, 4 zones: 31 + 365 Days are 13 whole months.
const LARGEST: Lengths = [
    48, 3200, 1600, 1600, 3600, 51200, 19200, 19200, 25600, 6400, 64, 832, 0, 0, 0,
];

/// 60 Days from February 2023 on, 3 users, 2 entry points, 2 zones: 28 + 31 Days are 2 whole months.
const MIDDLE: Lengths = [
    48, 120, 120, 120, 540, 360, 2880, 2880, 360, 180, 6, 12, 0, 0, 0,
];

/// 1 Day, 1 user, 1 entry point, 1 zone, no whole month.
const SMALLEST: Lengths = [48, 1, 1, 1, 9, 1, 48, 48, 1, 1, 1, 0, 0, 0, 0];

/// February 2024 without its last Day, and the whole of it, for 1 user, 1 entry point and 1 zone.
const ALMOST_A_MONTH: Lengths = [48, 28, 28, 28, 252, 28, 1344, 1344, 28, 28, 1, 0, 0, 0, 0];

const A_MONTH: Lengths = [48, 29, 29, 29, 261, 29, 1392, 1392, 29, 29, 1, 1, 0, 0, 0];

/// The answer to a new book over such tables. Refused, they hold what they held; else nothing.
fn answer(rt: &impl Abort, heap: Global, lengths: Lengths, b: BookTerms) -> Result<Answer, Fail> {
    let mut empty = Owner::empty(heap, lengths)?;
    let nothing = print(&empty.tables());
    let mut owner = Owner::wild(heap, lengths)?;
    let mut t = owner.tables();
    let before = print(&t);
    let answer = Draft::new(RunningRule, &mut t, b)
        .map(|_| ())
        .map_err(Fault::number);
    assert_eq!(rt; print(&t), if answer.is_ok() { nothing } else { before });
    Ok(answer)
}

/// Tables of these lengths are taken, and with a row less in one of them they are not.
fn just(rt: &impl Abort, heap: Global, lengths: Lengths, b: BookTerms) -> Result<(), Fail> {
    assert_eq!(rt; answer(rt, heap, lengths, b)?, Ok(()));
    // the number says which of all lengths is one less in the copy
    for table in 0..12 {
        let mut short = lengths;
        if short[table] > 0 {
            short[table] -= 1;
            assert_eq!(rt; answer(rt, heap, short, b)?, Err(5));
        }
    }
    Ok(())
}

#[test]
fn limits_of_books(rt: HostRuntime) -> Result<(), Fail> {
    for (year, month, days, users, entries, zones, expected) in [
        (2000, 1, 1, 1, 1, 1, Ok(())),
        (2099, 12, 400, 16, 8, 4, Ok(())),
        (1999, 12, 400, 16, 8, 4, Err(6)),
        (2100, 1, 1, 1, 1, 1, Err(6)),
        (-2000, 1, 1, 1, 1, 1, Err(6)),
        (67_536, 1, 1, 1, 1, 1, Err(6)),
        (2023, 0, 1, 1, 1, 1, Err(6)),
        (2023, 13, 1, 1, 1, 1, Err(6)),
        (2023, -1, 1, 1, 1, 1, Err(6)),
        (2023, 257, 1, 1, 1, 1, Err(6)),
        (2023, 2, 0, 1, 1, 1, Err(6)),
        (2023, 2, 401, 1, 1, 1, Err(6)),
        (2023, 2, -1, 1, 1, 1, Err(6)),
        (2023, 2, 65_537, 1, 1, 1, Err(6)),
        (2023, 2, i64::MIN, 1, 1, 1, Err(6)),
        (2023, 2, 1, 0, 1, 1, Err(6)),
        (2023, 2, 1, 17, 1, 1, Err(6)),
        (2023, 2, 1, -1, 1, 1, Err(6)),
        (2023, 2, 1, 65_537, 1, 1, Err(6)),
        (2023, 2, 1, 1, 0, 1, Err(6)),
        (2023, 2, 1, 1, 9, 1, Err(6)),
        (2023, 2, 1, 1, -1, 1, Err(6)),
        (2023, 2, 1, 1, i64::MAX, 1, Err(6)),
        (2023, 2, 1, 1, 1, 0, Err(6)),
        (2023, 2, 1, 1, 1, 5, Err(6)),
        (2023, 2, 1, 1, 1, -1, Err(6)),
        (2023, 2, 1, 1, 1, 65_537, Err(6)),
    ] {
        let b = terms(year, month, days, users, entries, zones);
        assert_eq!(rt; answer(&rt, rt.alloc(), LARGEST, b)?, expected);
        // with no table at all the limits are looked at first
        assert_eq!(rt; answer(&rt, rt.alloc(), [0; 15], b)?, expected.and(Err(5)));
    }
    Ok(())
}

#[test]
fn tables_just_long_enough(rt: HostRuntime) -> Result<(), Fail> {
    just(&rt, rt.alloc(), SMALLEST, terms(2000, 1, 1, 1, 1, 1))?;
    just(&rt, rt.alloc(), MIDDLE, terms(2023, 2, 60, 3, 2, 2))?;
    just(&rt, rt.alloc(), LARGEST, terms(2099, 12, 400, 16, 8, 4))?;
    just(&rt, rt.alloc(), ALMOST_A_MONTH, terms(2024, 2, 28, 1, 1, 1))?;
    just(&rt, rt.alloc(), A_MONTH, terms(2024, 2, 29, 1, 1, 1))
}

#[test]
fn every_row_is_emptied(rt: HostRuntime) -> Result<(), Fail> {
    // longer tables than the book needs, and registers
    let lengths = [
        50, 121, 122, 123, 541, 361, 2881, 2882, 361, 181, 7, 13, 3, 4, 5,
    ];
    let b = terms(2023, 2, 60, 3, 2, 2);
    assert_eq!(rt; answer(&rt, rt.alloc(), lengths, b)?, Ok(()));
    let mut owner = Owner::wild(rt.alloc(), lengths)?;
    assert!(rt; Draft::new(RunningRule, &mut owner.tables(), b).is_ok());
    assert!(rt; owner.points.iter().all(|point| point.is_none()));
    assert!(rt; owner.prevailing.iter().all(|quantity| *quantity == 0));
    assert!(rt;
        owner.zone_figures.iter().all(|f| f.output == 0 && f.adjusted == 0 && f.unidentified == 0)
    );
    assert!(rt;
        owner
            .months
            .iter()
            .all(|f| f.reconciled == 0 && f.returned == 0)
    );
    assert!(rt; owner.trades.iter().all(|trade| trade.is_none()));
    Ok(())
}
