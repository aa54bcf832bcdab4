//! A book in either phase, and one call for everything that it takes.
ghost use Rattle.std.specs.Prelude.{◌≡◌};
ghost use Rattle.settlement.specs.Calls.{left_by, left_live, rule_of, verdict, verdict_live, whole};
ghost use Rattle.settlement.specs.State.{Lent, held, sizes};

use crate::draft::Draft;
use crate::fault::Fault;
use crate::live::Live;
use crate::tables::Tables;
use crate::terms::{
    DailyQuantityTerms, EntryMeasurementTerms, PointTerms, ProfileTerms, StatementTerms,
    TradeTerms, WeatherTerms, ZoneMeasurementTerms,
};
use ledger::ShareRule;

/// A draft, or a live book.
#[derive(Drop)]
pub enum Book<R> {
    Drafted(Draft<R>),
    Started(Live<R>),
}

/// Everything that a book takes.
#[derive(Clone, Copy, Debug, PartialEq, Eq)]
pub enum Call {
    Point(PointTerms),
    Start,
    MeasureEntry(EntryMeasurementTerms),
    MeasureZone(ZoneMeasurementTerms),
    Weather(WeatherTerms),
    Profile(ProfileTerms),
    Statement(StatementTerms),
    DailyQuantity(DailyQuantityTerms),
    Trade(TradeTerms),
}

/// What a live book answers to a call.
fn carry_live<R>(live: &Live<R>, t: &mut Tables<'_>, call: Call) -> Result<(), Fault>
    ensures answer { result ≡ verdict_live (sizes live.now.counts) (held live.now t.old) call }
    ensures after { held live.now t.new ≡ left_live (sizes live.now.counts) (held live.now t.old) call }
    ensures lent { Lent t.old t.new }
{
    match call {
        Call::Point(_) | Call::Start => Err(Fault::NotTakenNow),
        Call::MeasureEntry(terms) => live.measure_entry(t, terms),
        Call::MeasureZone(terms) => live.measure_zone(t, terms),
        Call::Weather(terms) => live.weather(t, terms),
        Call::Profile(terms) => live.profile(t, terms),
        Call::Statement(terms) => live.statement(t, terms),
        Call::DailyQuantity(terms) => live.daily_quantity(t, terms),
        Call::Trade(terms) => live.trade(t, terms),
    }
}

/// What a draft becomes of a call, and answers to it.
// The book stands beside the answer, since a start consumes the draft and makes a live book in its place.
fn carry_draft<R: ShareRule + Drop>(
    draft: Draft<R>,
    t: &mut Tables<'_>,
    call: Call,
) -> (Book<R>, Result<(), Fault>)
    ensures answer { result.1 ≡ verdict (whole (Book.Drafted draft) t.old) call }
    ensures after { whole result.0 t.new ≡ left_by (whole (Book.Drafted draft) t.old) call }
    ensures rule { rule_of result.0 ≡ draft.rule }
    ensures lent { Lent t.old t.new }
{
    let mut draft = draft;
    match call {
        Call::Point(p) => {
            let answer = draft.point(t, p);
            (Book::Drafted(draft), answer)
        }
        Call::Start => match draft.start(t) {
            Ok(live) => (Book::Started(live), Ok(())),
            Err((draft, fault)) => (Book::Drafted(draft), Err(fault)),
        },
        _ => (Book::Drafted(draft), Err(Fault::NotTakenNow)),
    }
}

impl<R: ShareRule + Drop> Book<R> {
    /// Carries a call out, and gives the book back with the answer.
    // The book is taken and given back, since a start consumes the draft and makes a live book in its place.
    pub fn carry_out(self, t: &mut Tables<'_>, call: Call) -> (Book<R>, Result<(), Fault>)
        ensures answer { result.1 ≡ verdict (whole self t.old) call }
        ensures after { whole result.0 t.new ≡ left_by (whole self t.old) call }
        ensures rule { rule_of result.0 ≡ rule_of self }
        ensures lent { Lent t.old t.new }
    {
        match self {
            Book::Drafted(draft) => carry_draft(draft, t, call),
            Book::Started(live) => {
                let answer = carry_live(&live, t, call);
                (Book::Started(live), answer)
            }
        }
    }
}
