//! What a book is brought, the answer, and the one row that may change.
use crate::prints::{at, class_number, print, write};
use ledger::RunningRule;
use settlement::{
    DailyQuantity, DailyQuantityTerms, Draft, Fault, Live, Point, PointTerms, Statement,
    StatementTerms, Tables,
};
use std::fmt::Debug;
use std::process::Abort;

/// Accepted, or the number of the refusal.
pub(crate) type Answer = Result<(), u8>;

/// What a book is brought; accepted, one row keeps it.
pub(crate) trait Brought: Copy + PartialEq + Debug {
    /// The book that takes it.
    type Book;

    /// What a row holds.
    type Row: Copy;

    fn bring(self, book: &mut Self::Book, t: &mut Tables<'_>) -> Result<(), Fault>;

    /// What was brought, as a row that is new says it.
    fn kept(t: &Tables<'_>, place: usize) -> Option<Self>;

    fn row(t: &Tables<'_>, place: usize) -> Option<Self::Row>;

    /// Writes a row from outside.
    fn write(t: &mut Tables<'_>, place: usize, row: Option<Self::Row>);
}

impl Brought for PointTerms {
    type Book = Draft<RunningRule>;

    type Row = Option<Point>;

    fn bring(self, book: &mut Draft<RunningRule>, t: &mut Tables<'_>) -> Result<(), Fault> {
        book.point(t, self)
    }

    fn kept(t: &Tables<'_>, place: usize) -> Option<PointTerms> {
        let point = at(t.points, place)??;
        if point.covered != 0 || point.last_index != point.first_index {
            return None;
        }
        Some(PointTerms {
            zone: i64::from(point.zone),
            user: i64::from(point.user),
            class: i64::from(class_number(point.class)),
            least_days: i64::from(point.class.least_days()),
            band: i64::from(point.band),
            aq: i64::try_from(point.aq).ok()?,
            index: i64::try_from(point.first_index).ok()?,
        })
    }

    fn row(t: &Tables<'_>, place: usize) -> Option<Option<Point>> {
        at(t.points, place)
    }

    fn write(t: &mut Tables<'_>, place: usize, row: Option<Option<Point>>) {
        write(t.points, place, row);
    }
}

impl Brought for StatementTerms {
    type Book = Live<RunningRule>;

    type Row = Option<Statement>;

    fn bring(self, book: &mut Live<RunningRule>, t: &mut Tables<'_>) -> Result<(), Fault> {
        book.statement(t, self)
    }

    fn kept(t: &Tables<'_>, place: usize) -> Option<StatementTerms> {
        let statement = at(t.statements, place)??;
        Some(StatementTerms {
            day: i64::from(statement.day),
            entry: i64::from(statement.entry),
            user: i64::from(statement.user),
            quantity: i64::try_from(statement.quantity).ok()?,
        })
    }

    fn row(t: &Tables<'_>, place: usize) -> Option<Option<Statement>> {
        at(t.statements, place)
    }

    fn write(t: &mut Tables<'_>, place: usize, row: Option<Option<Statement>>) {
        write(t.statements, place, row);
    }
}

impl Brought for DailyQuantityTerms {
    type Book = Live<RunningRule>;

    type Row = Option<DailyQuantity>;

    fn bring(self, book: &mut Live<RunningRule>, t: &mut Tables<'_>) -> Result<(), Fault> {
        book.daily_quantity(t, self)
    }

    fn kept(t: &Tables<'_>, place: usize) -> Option<DailyQuantityTerms> {
        let taken = at(t.daily_quantities, place)??;
        Some(DailyQuantityTerms {
            day: i64::from(taken.day),
            point: i64::from(taken.point),
            quantity: i64::try_from(taken.quantity).ok()?,
        })
    }

    fn row(t: &Tables<'_>, place: usize) -> Option<Option<DailyQuantity>> {
        at(t.daily_quantities, place)
    }

    fn write(t: &mut Tables<'_>, place: usize, row: Option<Option<DailyQuantity>>) {
        write(t.daily_quantities, place, row);
    }
}

/// Brings it, and sees that it is answered so, and that nothing changed but, where it is accepted, the row that keeps it.
pub(crate) fn brings<B: Brought>(
    rt: &impl Abort,
    book: &mut B::Book,
    t: &mut Tables<'_>,
    brought: B,
    answer: Answer,
    place: usize,
) {
    let before = print(t);
    let old = B::row(t, place);
    assert_eq!(rt; brought.bring(book, t).map_err(Fault::number), answer);
    if answer.is_err() {
        assert_eq!(rt; print(t), before);
        return;
    }
    let new = B::row(t, place);
    assert_eq!(rt; B::kept(t, place), Some(brought));
    B::write(t, place, old);
    assert_eq!(rt; print(t), before);
    B::write(t, place, new);
}

/// Brings one after the other, with the answer and the place of the row.
pub(crate) fn brings_all<B: Brought>(
    rt: &impl Abort,
    book: &mut B::Book,
    t: &mut Tables<'_>,
    rows: &[(B, Answer, usize)],
) {
    for (brought, answer, place) in rows {
        brings(rt, book, t, *brought, *answer, *place);
    }
}
