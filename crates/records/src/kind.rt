//! The kinds of records: their letters, their keys and their fields.
ghost use Rattle.std.specs.Prelude.{◌≡◌, ◌≤◌, length, take};
ghost use Rattle.records.specs.Format.{Letter, keys, made_of};
ghost use Rattle.records.specs.Lines.{texts};

/// What a record is, as its first line says by a letter.
#[derive(Clone, Copy, Debug, PartialEq, Eq)]
pub enum Kind {
    Book,
    Point,
    Start,
    EntryMeasurement,
    ZoneMeasurement,
    Weather,
    Profile,
    Statement,
    DailyQuantity,
    Trade,
    CloseDay,
    Reading,
    CloseMonth,
}

/// A value that is not the letter of any kind.
#[derive(Clone, Copy, Debug, PartialEq, Eq)]
pub struct UnknownKind;

/// A record, with its numbers as the text has them.
#[derive(Clone, Copy, Debug, PartialEq, Eq)]
pub enum Record {
    /// A new book.
    Book {
        year: i64,
        month: i64,
        days: i64,
        users: i64,
        entries: i64,
        zones: i64,
    },
    /// An exit point. `read` is the least number of days between its readings.
    Point {
        zone: i64,
        user: i64,
        class: i64,
        read: i64,
        band: i64,
        aq: i64,
        index: i64,
    },
    /// The start of the book.
    Start,
    /// What was measured at an entry point on a day.
    EntryMeasurement {
        day: i64,
        entry: i64,
        quantity: i64,
    },
    /// What was measured for a zone on a day.
    ZoneMeasurement {
        day: i64,
        zone: i64,
        quantity: i64,
    },
    /// The calorific value and the weather correction factor of a zone on a day.
    Weather {
        day: i64,
        zone: i64,
        cv: i64,
        wcf: i64,
    },
    /// The annual load profile and the daily adjustment factor of a band on a day.
    Profile {
        day: i64,
        band: i64,
        alp: i64,
        daf: i64,
    },
    /// What a user states for an entry point on a day.
    Statement {
        day: i64,
        entry: i64,
        user: i64,
        quantity: i64,
    },
    /// What a point took on a day.
    DailyQuantity {
        day: i64,
        point: i64,
        quantity: i64,
    },
    /// A trade between two users on a day.
    Trade {
        day: i64,
        seller: i64,
        buyer: i64,
        quantity: i64,
    },
    /// The close of the next day.
    CloseDay,
    /// A meter's index at a point on a day.
    Reading {
        point: i64,
        day: i64,
        index: i64,
    },
    /// The close of the next month.
    CloseMonth,
}

/// The most keys that a kind has.
pub(crate) const MOST_KEYS: usize = 7;

impl TryFrom<&[u8]> for Kind {
    type Error = UnknownKind;

    ghost try_from_gives = { Letter };

    fn try_from(value: &[u8]) -> Result<Kind, UnknownKind> {
        // The pattern of one byte is no Option that `ok_or` could take.
        let [letter] = value else {
            return Err(UnknownKind);
        };
        match char::from(*letter) {
            'B' => Ok(Kind::Book),
            'P' => Ok(Kind::Point),
            'G' => Ok(Kind::Start),
            'E' => Ok(Kind::EntryMeasurement),
            'Z' => Ok(Kind::ZoneMeasurement),
            'W' => Ok(Kind::Weather),
            'A' => Ok(Kind::Profile),
            'S' => Ok(Kind::Statement),
            'Q' => Ok(Kind::DailyQuantity),
            'T' => Ok(Kind::Trade),
            'C' => Ok(Kind::CloseDay),
            'R' => Ok(Kind::Reading),
            'M' => Ok(Kind::CloseMonth),
            _ => Err(UnknownKind),
        }
    }
}

impl Kind {
    /// The keys of the kind's lines after the first, in order.
    pub fn keys(self) -> &'static [&'static [u8]]
        ensures names { texts result.now ≡ keys self }
        ensures count { length result.now ≡ length (keys self) }
        ensures few { length result.now ≤ 7 }
    {
        match self {
            Kind::Book => &[b"year", b"month", b"days", b"users", b"entries", b"zones"],
            Kind::Point => &[
                b"zone", b"user", b"class", b"read", b"band", b"aq", b"index",
            ],
            Kind::Start => &[],
            Kind::EntryMeasurement => &[b"day", b"entry", b"quantity"],
            Kind::ZoneMeasurement => &[b"day", b"zone", b"quantity"],
            Kind::Weather => &[b"day", b"zone", b"cv", b"wcf"],
            Kind::Profile => &[b"day", b"band", b"alp", b"daf"],
            Kind::Statement => &[b"day", b"entry", b"user", b"quantity"],
            Kind::DailyQuantity => &[b"day", b"point", b"quantity"],
            Kind::Trade => &[b"day", b"seller", b"buyer", b"quantity"],
            Kind::CloseDay => &[],
            Kind::Reading => &[b"point", b"day", b"index"],
            Kind::CloseMonth => &[],
        }
    }
}

/// The first `N` of these numbers.
fn first<const N: usize>(numbers: &[i64]) -> [i64; N]
    requires { N ≤ length numbers.now }
    ensures { result ≡ take N numbers.now }
{
    let mut taken = [0; N];
    taken.copy_from_slice(&numbers[..N]);
    taken
}

impl Record {
    /// The record of a kind with these numbers, in the order of its keys.
    // Each case is built by a function of its own, since one match of all would be too long for a function.
    pub(crate) fn of(kind: Kind, n: &[i64]) -> Record
        requires { length (keys kind) ≤ length n.now }
        ensures { result ≡ made_of kind n.now }
    {
        match kind {
            Kind::Book => Record::book(first(n)),
            Kind::Point => Record::point(first(n)),
            Kind::Start => Record::Start,
            Kind::EntryMeasurement => Record::entry_measurement(first(n)),
            Kind::ZoneMeasurement => Record::zone_measurement(first(n)),
            Kind::Weather => Record::weather(first(n)),
            Kind::Profile => Record::profile(first(n)),
            Kind::Statement => Record::statement(first(n)),
            Kind::DailyQuantity => Record::daily_quantity(first(n)),
            Kind::Trade => Record::trade(first(n)),
            Kind::CloseDay => Record::CloseDay,
            Kind::Reading => Record::reading(first(n)),
            Kind::CloseMonth => Record::CloseMonth,
        }
    }

    /// A new book with these numbers.
    fn book(n: [i64; 6]) -> Record
        ensures { result ≡ made_of Kind.Book n }
    {
        let [year, month, days, users, entries, zones] = n;
        Record::Book {
            year,
            month,
            days,
            users,
            entries,
            zones,
        }
    }

    /// A point with these numbers.
    fn point(n: [i64; 7]) -> Record
        ensures { result ≡ made_of Kind.Point n }
    {
        let [zone, user, class, read, band, aq, index] = n;
        Record::Point {
            zone,
            user,
            class,
            read,
            band,
            aq,
            index,
        }
    }

    /// An entry point measurement with these numbers.
    fn entry_measurement(n: [i64; 3]) -> Record
        ensures { result ≡ made_of Kind.EntryMeasurement n }
    {
        let [day, entry, quantity] = n;
        Record::EntryMeasurement {
            day,
            entry,
            quantity,
        }
    }

    /// A zone measurement with these numbers.
    fn zone_measurement(n: [i64; 3]) -> Record
        ensures { result ≡ made_of Kind.ZoneMeasurement n }
    {
        let [day, zone, quantity] = n;
        Record::ZoneMeasurement {
            day,
            zone,
            quantity,
        }
    }

    /// The weather of a zone with these numbers.
    fn weather(n: [i64; 4]) -> Record
        ensures { result ≡ made_of Kind.Weather n }
    {
        let [day, zone, cv, wcf] = n;
        Record::Weather { day, zone, cv, wcf }
    }

    /// The profile of a band with these numbers.
    fn profile(n: [i64; 4]) -> Record
        ensures { result ≡ made_of Kind.Profile n }
    {
        let [day, band, alp, daf] = n;
        Record::Profile {
            day,
            band,
            alp,
            daf,
        }
    }

    /// A statement with these numbers.
    fn statement(n: [i64; 4]) -> Record
        ensures { result ≡ made_of Kind.Statement n }
    {
        let [day, entry, user, quantity] = n;
        Record::Statement {
            day,
            entry,
            user,
            quantity,
        }
    }

    /// A daily quantity with these numbers.
    fn daily_quantity(n: [i64; 3]) -> Record
        ensures { result ≡ made_of Kind.DailyQuantity n }
    {
        let [day, point, quantity] = n;
        Record::DailyQuantity {
            day,
            point,
            quantity,
        }
    }

    /// A trade with these numbers.
    fn trade(n: [i64; 4]) -> Record
        ensures { result ≡ made_of Kind.Trade n }
    {
        let [day, seller, buyer, quantity] = n;
        Record::Trade {
            day,
            seller,
            buyer,
            quantity,
        }
    }

    /// A reading with these numbers.
    fn reading(n: [i64; 3]) -> Record
        ensures { result ≡ made_of Kind.Reading n }
    {
        let [point, day, index] = n;
        Record::Reading { point, day, index }
    }
}
