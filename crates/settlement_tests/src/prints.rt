//! What tables hold, as one number: a row that changes changes it.
use settlement::{
    Balance, Class, DailyQuantity, MonthFigures, Point, Profile, Statement, Tables, Trade, Weather,
    ZoneFigures,
};

// by hand: a derived Hash would stand in the library, for these tests alone
pub(crate) trait Row: Copy {
    fn print(self) -> u64;
}

fn mixed(a: u64, b: u64) -> u64 {
    (a ^ b).wrapping_mul(1_099_511_628_211)
}

fn mixed3(a: u64, b: u64, c: u64) -> u64 {
    mixed(mixed(mixed(7, a), b), c)
}

fn signed(x: i64) -> u64 {
    if x < 0 {
        mixed(5, x.unsigned_abs())
    } else {
        x.unsigned_abs()
    }
}

impl Row for u64 {
    fn print(self) -> u64 {
        self
    }
}

impl Row for i64 {
    fn print(self) -> u64 {
        signed(self)
    }
}

impl<T: Row> Row for Option<T> {
    fn print(self) -> u64 {
        match self {
            Some(x) => mixed(3, x.print()),
            None => 1,
        }
    }
}

/// The number that the class goes by.
pub(crate) fn class_number(class: Class) -> u16 {
    match class {
        Class::One => 1,
        Class::Two => 2,
        Class::Three => 3,
        Class::Four(_) => 4,
    }
}

impl Row for Point {
    fn print(self) -> u64 {
        let class = mixed3(
            class_number(self.class) as u64,
            self.class.least_days() as u64,
            self.band as u64,
        );
        let reading = mixed3(self.first_index, self.covered as u64, self.last_index);
        mixed3(
            mixed3(self.zone as u64, self.user as u64, self.aq),
            class,
            reading,
        )
    }
}

impl Row for Weather {
    fn print(self) -> u64 {
        mixed3(self.cv, signed(self.wcf), 1)
    }
}

impl Row for Profile {
    fn print(self) -> u64 {
        mixed3(self.alp, signed(self.daf), 2)
    }
}

impl Row for ZoneFigures {
    fn print(self) -> u64 {
        mixed3(self.output, self.adjusted, signed(self.unidentified))
    }
}

impl Row for Balance {
    fn print(self) -> u64 {
        mixed3(signed(self.traded), signed(self.imbalance), 3)
    }
}

impl Row for MonthFigures {
    fn print(self) -> u64 {
        mixed3(signed(self.reconciled), signed(self.returned), 4)
    }
}

impl Row for Statement {
    fn print(self) -> u64 {
        mixed3(
            mixed(self.day as u64, self.quantity),
            self.entry as u64,
            self.user as u64,
        )
    }
}

impl Row for DailyQuantity {
    fn print(self) -> u64 {
        mixed3(self.day as u64, self.point as u64, self.quantity)
    }
}

impl Row for Trade {
    fn print(self) -> u64 {
        mixed3(
            mixed(self.day as u64, self.quantity),
            self.seller as u64,
            self.buyer as u64,
        )
    }
}

fn rows<T: Row>(first: u64, xs: &[T]) -> u64 {
    xs.iter()
        .fold(mixed(first, 11), |print, x| mixed(print, x.print()))
}

fn record_rows(t: &Tables<'_>) -> u64 {
    let mut print = rows(0, t.points);
    print = rows(print, t.entry_measurements);
    print = rows(print, t.zone_measurements);
    print = rows(print, t.weather);
    print = rows(print, t.profiles);
    print = rows(print, t.statements);
    print = rows(print, t.daily_quantities);
    rows(print, t.trades)
}

fn figure_rows(t: &Tables<'_>) -> u64 {
    let mut print = rows(1, t.inputs);
    print = rows(print, t.outputs);
    print = rows(print, t.prevailing);
    print = rows(print, t.zone_figures);
    print = rows(print, t.balances);
    print = rows(print, t.reconciliations);
    rows(print, t.months)
}

/// The number of all that the tables and registers hold.
pub(crate) fn print(t: &Tables<'_>) -> u64 {
    mixed(record_rows(t), figure_rows(t))
}

/// What a row holds.
pub(crate) fn at<T: Copy>(xs: &[T], row: usize) -> Option<T> {
    xs.get(row).copied()
}

/// Writes a row from outside.
pub(crate) fn write<T: Copy>(xs: &mut [T], row: usize, x: Option<T>) {
    if let Some(x) = x
        && let Some(place) = xs.get_mut(row)
    {
        *place = x;
    }
}
