use super::*;
use ledger::calendar::{Calendar, days_in_month};
use ledger::table::{line_of, place2, place3, put_line};

fn parcel(week: u32, tray: u16, weight: u32) -> Parcel {
    Parcel {
        week,
        shelf: 1,
        tray,
        weight,
    }
}

/// Puts parcels (week, tray, weight), and says whether each was answered as its row says.
fn puts(register: &mut Register<'_, Parcel>, rows: &[(u32, u16, u32, Result<(), u8>)]) -> bool {
    let mut same = true;
    for (week, tray, weight, answer) in rows {
        let put = register.put(parcel(*week, *tray, *weight));
        same = put.map_err(Full::number) == *answer && same;
    }
    same
}

/// The weight of what lies there.
fn weight(register: &Register<'_, Parcel>, week: u32, tray: u16) -> Option<u32> {
    let place = Place {
        week,
        shelf: 1,
        tray,
    };
    register.get(place).map(|p| p.weight)
}

/// Whether each row's week and tray has the row's weight.
fn holds(register: &Register<'_, Parcel>, rows: &[(u32, u16, Option<u32>)]) -> bool {
    rows.iter().all(|(week, tray, expected)| weight(register, *week, *tray) == *expected)
}

#[test]
fn no_slot_takes_nothing(rt: HostRuntime) {
    let mut slots = [None; 0];
    let mut register = Register { slots: &mut slots };
    assert!(rt; puts(&mut register, &[(1, 1, 5, Err(12))]));
    assert!(rt; holds(&register, &[(1, 1, None)]));
}

#[test]
fn one_slot_keeps_one_key(rt: HostRuntime) {
    let mut slots = [None; 1];
    let mut register = Register { slots: &mut slots };
    assert!(rt;
        puts(
            &mut register,
            &[(1, 1, 5, Ok(())), (1, 1, 6, Ok(())), (1, 2, 7, Err(12))],
        )
    );
    assert!(rt; holds(&register, &[(1, 1, Some(6)), (1, 2, None)]));
}

#[test]
fn a_week_makes_room(rt: HostRuntime) {
    let mut slots = [None; 3];
    let mut register = Register { slots: &mut slots };
    assert!(rt;
        puts(
            &mut register,
            &[
                (1, 1, 5, Ok(())),
                (2, 1, 6, Ok(())),
                (1, 2, 7, Ok(())),
                (3, 1, 8, Err(12)),
            ],
        )
    );
    register.take_out(1);
    assert!(rt; holds(&register, &[(1, 1, None), (2, 1, Some(6)), (1, 2, None)]));
    assert!(rt;
        puts(
            &mut register,
            &[(3, 1, 8, Ok(())), (3, 2, 9, Ok(())), (3, 3, 1, Err(12))],
        )
    );
    assert!(rt;
        holds(
            &register,
            &[(2, 1, Some(6)), (3, 1, Some(8)), (3, 2, Some(9))]
        )
    );
}

#[test]
fn the_first_of_two_counts(rt: HostRuntime) {
    let mut slots = [None, Some(parcel(1, 1, 5)), Some(parcel(1, 1, 6))];
    let mut register = Register { slots: &mut slots };
    assert!(rt; holds(&register, &[(1, 1, Some(5))]));
    assert!(rt; puts(&mut register, &[(1, 1, 7, Ok(()))]));
    assert!(rt; holds(&register, &[(1, 1, Some(7))]));
    assert!(rt; slots[0].is_none() && slots[2].is_some());
}

#[test]
fn months_of_a_year(rt: HostRuntime) {
    for (year, month, days) in [
        (2023, 2, Some(28)),
        (2024, 2, Some(29)),
        (2000, 2, Some(29)),
        (2100, 2, Some(28)),
        (2100, 12, Some(31)),
        (2100, 0, None),
        (2100, 13, None),
    ] {
        assert_eq!(rt; days_in_month(year, month), days);
    }
}

/// Whether each row is a month, its first day and its length, and its window's first day and end.
fn agrees(calendar: Calendar, rows: &[(u16, u32, u8, u32, u32)]) -> bool {
    rows.iter().all(|(month, first, length, from, end)| {
        let window = calendar.window(*month);
        calendar.first_day(*month) == *first
            && calendar.length(*month) == *length
            && window.first == *from
            && window.end == *end
    })
}

/// Whether the rows are those of 400 days from the first day of the month.
fn from_month(year: i64, month: i64, rows: &[(u16, u32, u8, u32, u32)]) -> bool {
    Calendar::new(year, month, 400).is_some_and(|calendar| agrees(calendar, rows))
}

#[test]
fn four_hundred_days(rt: HostRuntime) {
    assert!(rt;
        from_month(
            2023,
            2,
            &[
                (0, 0, 28, 0, 28),
                (1, 28, 31, 0, 59),
                (11, 334, 31, 0, 365),
                (12, 365, 29, 28, 394),
                (13, 394, 31, 59, 425),
            ],
        )
    );
    assert!(rt;
        from_month(
            2099,
            3,
            &[
                (0, 0, 31, 0, 31),
                (10, 306, 31, 0, 337),
                (11, 337, 28, 0, 365),
                (12, 365, 31, 31, 396),
            ],
        )
    );
}

/// How many months lie wholly inside, where there is a span.
fn whole(year: i64, month: i64, days: i64) -> Option<u16> {
    Calendar::new(year, month, days).map(|calendar| calendar.months())
}

#[test]
fn whole_months(rt: HostRuntime) {
    for (year, month, days, months) in [
        (2023, 2, 400, Some(13)),
        (2099, 3, 400, Some(13)),
        (2023, 2, 394, Some(13)),
        (2023, 2, 393, Some(12)),
        (2023, 2, 28, Some(1)),
        (2023, 2, 27, Some(0)),
        (1999, 12, 31, None),
        (2100, 1, 31, None),
        (2099, 0, 31, None),
        (2099, 13, 31, None),
        (2099, 12, 401, None),
        (2000, 1, 0, None),
        (2000, -1, 31, None),
    ] {
        assert_eq!(rt; whole(year, month, days), months);
    }
}

#[test]
fn lines_of_a_table(rt: HostRuntime) {
    let mut table = [1, 2, 3, 4, 5, 6, 7];
    assert!(rt; place2(3, 1, 2) == 5 && place3(4, 3, 2, 1, 2) == 29);
    assert!(rt; put_line(&mut table, 3, 1, &[7, 8, 9]));
    assert!(rt; !put_line(&mut table, 3, 2, &[7, 8, 9]));
    assert!(rt; !put_line(&mut table, 3, 0, &[7, 8]));
    assert!(rt; table[2] == 3 && table[3] == 7 && table[5] == 9 && table[6] == 7);
    assert!(rt; line_of(&table, 3, 2).is_none() && line_of(&table, 3, 1).is_some());
}
