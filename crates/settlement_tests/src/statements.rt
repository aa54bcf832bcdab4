//! Statements, and their register.
use crate::small_book::{NO_PLACE, ONE_PLACE, SMALL, run};
use settlement::StatementTerms;
use std::test::Fail;

fn of(day: i64, entry: i64, user: i64, quantity: i64) -> StatementTerms {
    StatementTerms {
        day,
        entry,
        user,
        quantity,
    }
}

#[test]
fn limits_of_statements(rt: HostRuntime) -> Result<(), Fail> {
    // each value in its place, and the last counts
    run(
        &rt,
        rt.alloc(),
        SMALL,
        &[
            (of(0, 1, 1, 0), Ok(()), 0),
            (of(0, 1, 1, 50_000_000), Ok(()), 0),
            (of(2, 3, 4, 9), Ok(()), 1),
            (of(0, 1, 1, 12), Ok(()), 0),
            (of(2, 3, 4, 0), Ok(()), 1),
        ],
    )?;
    // one ground
    run(
        &rt,
        rt.alloc(),
        SMALL,
        &[
            (of(0, 1, 1, -1), Err(6), 0),
            (of(0, 1, 1, 50_000_001), Err(6), 0),
            (of(0, 1, 1, i64::MIN), Err(6), 0),
            (of(0, 1, 1, i64::MAX), Err(6), 0),
        ],
    )?;
    run(
        &rt,
        rt.alloc(),
        SMALL,
        &[
            (of(0, 0, 1, 1), Err(7), 0),
            (of(0, 4, 1, 1), Err(7), 0),
            (of(0, -1, 1, 1), Err(7), 0),
            (of(0, 65_537, 1, 1), Err(7), 0),
        ],
    )?;
    run(
        &rt,
        rt.alloc(),
        SMALL,
        &[
            (of(0, 1, 0, 1), Err(7), 0),
            (of(0, 1, 5, 1), Err(7), 0),
            (of(0, 1, -1, 1), Err(7), 0),
            (of(0, 1, 65_537, 1), Err(7), 0),
        ],
    )?;
    run(
        &rt,
        rt.alloc(),
        SMALL,
        &[
            (of(-1, 1, 1, 1), Err(9), 0),
            (of(3, 1, 1, 1), Err(9), 0),
            (of(65_536, 1, 1, 1), Err(9), 0),
            (of(i64::MIN, 1, 1, 1), Err(9), 0),
        ],
    )?;
    // several at once
    run(
        &rt,
        rt.alloc(),
        SMALL,
        &[
            (of(0, 4, 1, -1), Err(6), 0),
            (of(0, 1, 5, -1), Err(6), 0),
            (of(3, 1, 1, -1), Err(6), 0),
            (of(3, 4, 1, 1), Err(7), 0),
            (of(-1, 1, 5, 1), Err(7), 0),
            (of(3, 0, 0, -1), Err(6), 0),
        ],
    )
}

#[test]
fn register_of_statements(rt: HostRuntime) -> Result<(), Fail> {
    // a full register takes a key that it has, and no key that differs in one part; each other ground comes first
    run(
        &rt,
        rt.alloc(),
        SMALL,
        &[
            (of(0, 1, 1, 5), Ok(()), 0),
            (of(1, 2, 3, 6), Ok(()), 1),
            (of(1, 1, 1, 7), Err(12), 0),
            (of(0, 2, 1, 7), Err(12), 0),
            (of(0, 1, 2, 7), Err(12), 0),
            (of(1, 2, 3, 8), Ok(()), 1),
            (of(0, 1, 1, 9), Ok(()), 0),
            (of(2, 1, 1, -1), Err(6), 0),
            (of(2, 4, 1, 1), Err(7), 0),
            (of(2, 1, 5, 1), Err(7), 0),
            (of(3, 1, 1, 1), Err(9), 0),
        ],
    )?;
    run(
        &rt,
        rt.alloc(),
        ONE_PLACE,
        &[
            (of(2, 3, 4, 5), Ok(()), 0),
            (of(2, 3, 4, 5), Ok(()), 0),
            (of(2, 3, 4, 50_000_000), Ok(()), 0),
            (of(2, 3, 4, 1), Ok(()), 0),
            (of(2, 3, 3, 1), Err(12), 0),
            (of(2, 3, 4, 2), Ok(()), 0),
        ],
    )?;
    run(
        &rt,
        rt.alloc(),
        NO_PLACE,
        &[
            (of(0, 1, 1, 1), Err(12), 0),
            (of(0, 1, 1, -1), Err(6), 0),
            (of(0, 0, 1, 1), Err(7), 0),
            (of(3, 1, 1, 1), Err(9), 0),
        ],
    )
}
