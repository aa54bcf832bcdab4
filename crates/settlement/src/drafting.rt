//! New books, and what a draft takes: points, and its start.
ghost use Rattle.std.specs.Prelude.{◌≡◌, ◌<◌, length, IfOk};
ghost use Rattle.ledger.specs.Grounds.{told};
ghost use Rattle.settlement.specs.Drafting.{Started, counted, counts_ground, drafted_sizes, new_after, new_ground, point_after, point_ground, point_of, start_ground};
ghost use Rattle.settlement.specs.State.{Lent, drafted, emptied, lists, sizes};

use crate::counts::Counts;
use crate::draft::Draft;
use crate::fault::Fault;
use crate::live::Live;
use crate::rows::{Balance, Class, MonthFigures, Point, ZoneFigures};
use crate::tables::Tables;
use crate::terms::{BookTerms, PointTerms};
use ledger::ShareRule;
use ledger::calendar::Calendar;
use ledger::range::{number_in, quantity_in};

const MAX_POINTS: u16 = 48;

/// The counts, where they make a book.
impl TryFrom<BookTerms> for Counts {
    type Error = Fault;

    ghost try_from_gives = { λ b r. counted r ≡ counts_ground b };

    fn try_from(b: BookTerms) -> Result<Counts, Fault> {
        let calendar = Calendar::new(b.year, b.month, b.days).ok_or(Fault::OutsideLimits)?;
        let users = number_in(b.users, 1, 16).ok_or(Fault::OutsideLimits)?;
        let entries = number_in(b.entries, 1, 8).ok_or(Fault::OutsideLimits)?;
        let zones = number_in(b.zones, 1, 4).ok_or(Fault::OutsideLimits)?;
        Ok(Counts {
            calendar,
            days: calendar.days(),
            months: calendar.months(),
            users,
            entries,
            zones,
        })
    }
}

/// Empties every row of every table and every place of every register.
fn empty(t: &mut Tables<'_>)
    ensures after { lists t.new ≡ emptied (lists t.old) }
    ensures lent { Lent t.old t.new }
{
    t.points.fill(None);
    t.entry_measurements.fill(None);
    t.zone_measurements.fill(None);
    t.weather.fill(None);
    t.profiles.fill(None);
    t.inputs.fill(0);
    t.outputs.fill(0);
    t.prevailing.fill(0);
    t.zone_figures.fill(ZoneFigures::default());
    t.balances.fill(Balance::default());
    t.reconciliations.fill(0);
    t.months.fill(MonthFigures::default());
    t.statements.fill(None);
    t.daily_quantities.fill(None);
    t.trades.fill(None);
}

/// The point that the terms describe.
fn point_of(z: Counts, p: PointTerms) -> Result<Point, Fault>
    ensures { result ≡ point_of (sizes z) p }
{
    let class = Class::of(p.class, p.least_days).ok_or(Fault::OutsideLimits)?;
    let band = number_in(p.band, 1, 9).ok_or(Fault::OutsideLimits)?;
    let aq = quantity_in(p.aq, 0, 300_000_000).ok_or(Fault::OutsideLimits)?;
    let index = quantity_in(p.index, 0, 999_999).ok_or(Fault::OutsideLimits)?;
    let zone = number_in(p.zone, 1, z.zones).ok_or(Fault::NotInBook)?;
    let user = number_in(p.user, 1, z.users).ok_or(Fault::NotInBook)?;
    Ok(Point {
        zone,
        user,
        class,
        band,
        aq,
        first_index: index,
        covered: 0,
        last_index: index,
    })
}

impl<R: ShareRule + Drop> Draft<R> {
    /// A draft of a new book, by a share rule, over tables that are emptied.
    pub fn new(rule: R, t: &mut Tables<'_>, b: BookTerms) -> Result<Draft<R>, Fault>
        ensures answer { drafted_sizes result ≡ new_ground b (lists t.old) }
        ensures draft { IfOk result (λ d. (d.rule ≡ rule) × (d.points ≡ 0)) }
        ensures after { lists t.new ≡ new_after b (lists t.old) }
        ensures lent { Lent t.old t.new }
    {
        let counts = Counts::try_from(b)?;
        counts.fitting(t)?;
        empty(t);
        Ok(Draft {
            rule,
            counts,
            points: 0,
        })
    }

    /// The point that may be added, or the first ground met.
    fn point_ground(&self, t: &Tables<'_>, p: PointTerms) -> Result<Point, Fault>
        ensures answer { result ≡ point_ground (sizes self.now.counts) (drafted self.now t.now) p }
        ensures room { IfOk result (λ _. (self.now.points < MAX_POINTS) × (self.now.points < length t.now.points.now)) }
    {
        self.counts.fitting(t)?;
        let point = point_of(self.counts, p)?;
        if self.points >= MAX_POINTS {
            return Err(Fault::TooManyPoints);
        }
        Ok(point)
    }

    /// Adds a point, in the next row.
    pub fn point(&mut self, t: &mut Tables<'_>, p: PointTerms) -> Result<(), Fault>
        ensures answer { result ≡ told (point_ground (sizes self.old.counts) (drafted self.old t.old) p) }
        ensures after { drafted self.new t.new ≡ point_after (sizes self.old.counts) (drafted self.old t.old) p }
        ensures same { (self.new.rule ≡ self.old.rule) × (self.new.counts ≡ self.old.counts) }
        ensures lent { Lent t.old t.new }
    {
        let point = self.point_ground(t, p)?;
        let row = self.points as usize;
        t.points[row] = Some(point);
        self.points += 1;
        Ok(())
    }

    /// Starts the book. A refusal hands the draft back.
    pub fn start(self, t: &Tables<'_>) -> Result<Live<R>, (Draft<R>, Fault)>
        ensures { Started self (start_ground (sizes self.counts) (drafted self t.now)) result }
    {
        // A refusal hands the draft back, which a closure for `map_err` would have taken.
        if let Err(fault) = self.counts.fitting(t) {
            return Err((self, fault));
        }
        if self.points == 0 {
            return Err((self, Fault::NoPoint));
        }
        let Draft {
            rule,
            counts,
            points,
        } = self;
        Ok(Live {
            rule,
            counts,
            points,
            closed: 0,
            closed_months: 0,
            slips: 0,
        })
    }
}
