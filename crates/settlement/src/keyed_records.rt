//! Statements, daily quantities and trades of an open Day, which go into registers.
ghost use Rattle.std.specs.Prelude.{◌≡◌};
ghost use Rattle.ledger.specs.Grounds.{told};
ghost use Rattle.ledger.specs.Slots.{put_after};
ghost use Rattle.settlement.specs.DayRecords.{RowsInside, daily_after, daily_ground, daily_record, point_within, put_told, row_readable, row_within, statement_after, statement_ground, statement_record, takes_daily_row, trade_after, trade_ground, trade_record};
ghost use Rattle.settlement.specs.State.{Lent, held, lists, sizes};

use crate::counts::Counts;
use crate::day_records::{DailyQuantity, Statement, Trade};
use crate::fault::Fault;
use crate::live::Live;
use crate::recording::MAX_QUANTITY;
use crate::rows::Point;
use crate::tables::Tables;
use crate::terms::{DailyQuantityTerms, StatementTerms, TradeTerms};
use ledger::range::{number_in, quantity_in};
use ledger::register::{Keyed, Register};

/// The largest daily quantity at an exit point, in kWh.
const MAX_DAILY: u64 = 1_000_000;

/// Puts a record into a register.
// Not inlined: as part of the program's main loop, scans of a full register were seen to take about a third longer.
#[inline(never)]
fn put<R: Keyed>(slots: &mut [Option<R>], new: R) -> Result<(), Fault>
    ensures answer { result ≡ put_told (R.Keyed.keyed (R.Keyed.key_of new)) slots.old }
    ensures after { slots.new ≡ put_after (R.Keyed.keyed (R.Keyed.key_of new)) new slots.old }
{
    let mut register = Register { slots };
    register.put(new)?;
    Ok(())
}

/// Whether a point's numbers are within their limits.
fn point_within(z: Counts, p: Point) -> bool
    ensures { result ≡ point_within (sizes z) p }
{
    (1..=z.zones).contains(&p.zone)
        && (1..=z.users).contains(&p.user)
        && (1..=9).contains(&p.band)
        && p.aq <= 300_000_000
        && p.first_index <= 999_999
        && p.covered <= z.days
        && p.last_index <= 999_999
}

/// Whether a row holds a point, within its limits.
fn row_within(z: Counts, row: Option<Point>) -> bool
    ensures { result ≡ row_within (sizes z) row }
{
    row.is_some_and(|p| point_within(z, p))
}

/// Whether a row holds a point whose class takes daily quantities.
fn takes_daily(row: Option<Point>) -> bool
    ensures { result ≡ takes_daily_row row }
{
    row.is_some_and(|p| p.class.takes_daily_quantities())
}

impl<R> Live<R> {
    /// The statement, before the register is asked.
    fn statement_record(&self, t: &Tables<'_>, terms: StatementTerms) -> Result<Statement, Fault>
        ensures { result ≡ statement_record (sizes self.now.counts) (held self.now t.now) terms }
    {
        self.counts.fitting(t)?;
        let quantity = quantity_in(terms.quantity, 0, MAX_QUANTITY).ok_or(Fault::OutsideLimits)?;
        let entry = number_in(terms.entry, 1, self.counts.entries).ok_or(Fault::NotInBook)?;
        let user = number_in(terms.user, 1, self.counts.users).ok_or(Fault::NotInBook)?;
        let day = self.open_day(terms.day)?;
        Ok(Statement {
            day,
            entry,
            user,
            quantity,
        })
    }

    /// What a user states to have put in at an entry point.
    pub fn statement(&self, t: &mut Tables<'_>, terms: StatementTerms) -> Result<(), Fault>
        ensures answer { result ≡ told (statement_ground (sizes self.now.counts) (held self.now t.old) terms) }
        ensures after { held self.now t.new ≡ statement_after (sizes self.now.counts) (held self.now t.old) terms }
        ensures lent { Lent t.old t.new }
    {
        let new = self.statement_record(t, terms)?;
        put(t.statements, new)
    }

    /// The trade, before the register is asked.
    // No twin of `statement_record`: whether seller and buyer are one is asked between the users and the Day.
    fn trade_record(&self, t: &Tables<'_>, terms: TradeTerms) -> Result<Trade, Fault>
        ensures { result ≡ trade_record (sizes self.now.counts) (held self.now t.now) terms }
    {
        self.counts.fitting(t)?;
        let quantity = quantity_in(terms.quantity, 0, MAX_QUANTITY).ok_or(Fault::OutsideLimits)?;
        let seller = number_in(terms.seller, 1, self.counts.users).ok_or(Fault::NotInBook)?;
        let buyer = number_in(terms.buyer, 1, self.counts.users).ok_or(Fault::NotInBook)?;
        if seller == buyer {
            return Err(Fault::SelfTrade);
        }
        let day = self.open_day(terms.day)?;
        Ok(Trade {
            day,
            seller,
            buyer,
            quantity,
        })
    }

    /// What a user sold to another.
    pub fn trade(&self, t: &mut Tables<'_>, terms: TradeTerms) -> Result<(), Fault>
        ensures answer { result ≡ told (trade_ground (sizes self.now.counts) (held self.now t.old) terms) }
        ensures after { held self.now t.new ≡ trade_after (sizes self.now.counts) (held self.now t.old) terms }
        ensures lent { Lent t.old t.new }
    {
        let new = self.trade_record(t, terms)?;
        put(t.trades, new)
    }

    /// Whether the row of a point, if there is such a point, can be read.
    fn row_readable(&self, t: &Tables<'_>, number: Option<u16>) -> bool
        requires { RowsInside (lists t.now) number }
        ensures { result ≡ row_readable (sizes self.now.counts) (held self.now t.now) number }
    {
        // A closure for `is_none_or` would have to require the number's range once more.
        match number {
            Some(n) => row_within(self.counts, t.points[n as usize - 1]),
            None => true,
        }
    }

    /// The daily quantity, before the register is asked.
    fn daily_record(
        &self,
        t: &Tables<'_>,
        terms: DailyQuantityTerms,
    ) -> Result<DailyQuantity, Fault>
        ensures { result ≡ daily_record (sizes self.now.counts) (held self.now t.now) terms }
    {
        self.counts.fitting(t)?;
        let number = number_in(terms.point, 1, self.points);
        if !self.row_readable(t, number) {
            return Err(Fault::BadTable);
        }
        let quantity = quantity_in(terms.quantity, 0, MAX_DAILY).ok_or(Fault::OutsideLimits)?;
        let point = number.ok_or(Fault::NotInBook)?;
        let day = self.open_day(terms.day)?;
        if !takes_daily(t.points[point as usize - 1]) {
            return Err(Fault::WrongClass);
        }
        Ok(DailyQuantity {
            day,
            point,
            quantity,
        })
    }

    /// What a point of class 1 or 2 took.
    pub fn daily_quantity(&self, t: &mut Tables<'_>, terms: DailyQuantityTerms) -> Result<(), Fault>
        ensures answer { result ≡ told (daily_ground (sizes self.now.counts) (held self.now t.old) terms) }
        ensures after { held self.now t.new ≡ daily_after (sizes self.now.counts) (held self.now t.old) terms }
        ensures lent { Lent t.old t.new }
    {
        let new = self.daily_record(t, terms)?;
        put(t.daily_quantities, new)
    }
}
