//! The program's desk: it has no book yet, or one, and takes records.
ghost use Rattle.std.specs.Prelude.{◌≡◌};
ghost use Rattle.gasbook.specs.Desk.{answer_to, asked, asked_after, begin_after, begun, call_of, desk_after, on_desk, terms_of};
ghost use Rattle.ledger.specs.Grounds.{told};
ghost use Rattle.settlement.specs.State.{Lent, lists};

use ledger::RunningRule;
use records::Record;
use settlement::{
    Book, BookTerms, Call, DailyQuantityTerms, Draft, EntryMeasurementTerms, Fault, PointTerms,
    ProfileTerms, StatementTerms, Tables, TradeTerms, WeatherTerms, ZoneMeasurementTerms,
};

/// The most Days of a book that the program's tables hold.
const MAX_DAYS: i64 = 62;

/// What a record wants of the desk.
#[derive(Clone, Copy, Debug, PartialEq, Eq)]
enum Order {
    /// A new book of these terms.
    Begin(BookTerms),
    /// A call on the book that there is.
    Ask(Call),
    /// What the desk does not take yet.
    NotTaken,
}

impl From<Record> for Order {
    ghost use Rattle.gasbook.specs.Orders.{Orders};

    ghost from_gives = { Orders };

    fn from(record: Record) -> Order {
        match record {
            Record::Book {
                year,
                month,
                days,
                users,
                entries,
                zones,
            } => Order::Begin(BookTerms {
                year,
                month,
                days,
                users,
                entries,
                zones,
            }),
            Record::Point {
                zone,
                user,
                class,
                read,
                band,
                aq,
                index,
            } => {
                Order::Ask(Call::Point(PointTerms {
                    zone,
                    user,
                    class,
                    least_days: read,
                    band,
                    aq,
                    index,
                }))
            }
            Record::Start => Order::Ask(Call::Start),
            Record::EntryMeasurement {
                day,
                entry,
                quantity,
            } => Order::Ask(Call::MeasureEntry(EntryMeasurementTerms {
                day,
                entry,
                quantity,
            })),
            Record::ZoneMeasurement {
                day,
                zone,
                quantity,
            } => Order::Ask(Call::MeasureZone(ZoneMeasurementTerms {
                day,
                zone,
                quantity,
            })),
            Record::Weather { day, zone, cv, wcf } => Order::Ask(Call::Weather(WeatherTerms {
                day,
                zone,
                cv,
                wcf,
            })),
            Record::Profile {
                day,
                band,
                alp,
                daf,
            } => Order::Ask(Call::Profile(ProfileTerms {
                day,
                band,
                alp,
                daf,
            })),
            Record::Statement {
                day,
                entry,
                user,
                quantity,
            } => Order::Ask(Call::Statement(StatementTerms {
                day,
                entry,
                user,
                quantity,
            })),
            Record::DailyQuantity {
                day,
                point,
                quantity,
            } => Order::Ask(Call::DailyQuantity(DailyQuantityTerms {
                day,
                point,
                quantity,
            })),
            Record::Trade {
                day,
                seller,
                buyer,
                quantity,
            } => Order::Ask(Call::Trade(TradeTerms {
                day,
                seller,
                buyer,
                quantity,
            })),
            Record::CloseDay | Record::Reading { .. } | Record::CloseMonth => Order::NotTaken,
        }
    }
}

/// The book that there is, if there is one.
#[derive(Drop)]
pub(crate) struct Desk {
    book: Option<Book<RunningRule>>,
}

impl Desk {
    /// A desk with no book yet.
    pub(crate) fn new() -> Desk
        ensures { result.book ≡ None }
    {
        Desk { book: None }
    }

    /// A new book in the place of the one that there is; refused, that one stays.
    fn begin(&mut self, t: &mut Tables<'_>, terms: BookTerms) -> Result<(), Fault>
        ensures answer { result ≡ told (begun terms (lists t.old)) }
        ensures after { on_desk self.new.book t.new ≡ begin_after (on_desk self.old.book t.old) terms (lists t.old) }
        ensures lent { Lent t.old t.new }
    {
        if terms.days > MAX_DAYS {
            return Err(Fault::OutsideLimits);
        }
        let draft = Draft::new(RunningRule, t, terms)?;
        self.book = Some(Book::Drafted(draft));
        Ok(())
    }

    /// A call on the book that there is.
    fn ask(&mut self, t: &mut Tables<'_>, call: Call) -> Result<(), Fault>
        ensures answer { result ≡ asked (on_desk self.old.book t.old) (Some call) }
        ensures after { on_desk self.new.book t.new ≡ asked_after (on_desk self.old.book t.old) (Some call) }
        ensures lent { Lent t.old t.new }
    {
        let book = self.book.take().ok_or(Fault::NotTakenNow)?;
        let (book, answer) = book.carry_out(t, call);
        self.book = Some(book);
        answer
    }

    /// Carries a record out: what lies on the desk then, and the answer.
    pub(crate) fn take(&mut self, t: &mut Tables<'_>, record: Record) -> Result<(), Fault>
        ensures answer { result ≡ answer_to (on_desk self.old.book t.old) (lists t.old) (terms_of «record») (call_of «record») }
        ensures after { on_desk self.new.book t.new ≡ desk_after (on_desk self.old.book t.old) (lists t.old) (terms_of «record») (call_of «record») }
        ensures lent { Lent t.old t.new }
    {
        match Order::from(record) {
            Order::Begin(terms) => self.begin(t, terms),
            Order::Ask(call) => self.ask(t, call),
            Order::NotTaken => Err(Fault::NotTakenNow),
        }
    }
}
