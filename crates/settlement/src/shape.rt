//! Whether the tables that are lent are long enough.
ghost use Rattle.std.specs.Prelude.{◌≡◌, ◌*◌, false, MatchResult};
ghost use Rattle.settlement.specs.Shape.{Long, figures_shaped, records_shaped, shaped};
ghost use Rattle.settlement.specs.State.{lists, sizes};

use crate::counts::Counts;
use crate::fault::Fault;
use crate::tables::Tables;

fn rows2(a: u16, b: u16) -> usize
    ensures { result ≡ a * b }
{
    a as usize * b as usize
}

fn rows3(a: u16, b: u16, c: u16) -> usize
    ensures { result ≡ a * b * c }
{
    rows2(a, b) * c as usize
}

impl Counts {
    /// Whether the tables of points, measurements and factors are long enough.
    fn records_fit(self, t: &Tables<'_>) -> bool
        ensures { result ≡ records_shaped (sizes self) (lists t.now) }
    {
        let by_entry = rows2(self.days, self.entries);
        let by_zone = rows2(self.days, self.zones);
        let by_band = rows2(self.days, 9);
        t.points.len() >= 48
            && t.entry_measurements.len() >= by_entry
            && t.zone_measurements.len() >= by_zone
            && t.weather.len() >= by_zone
            && t.profiles.len() >= by_band
    }

    /// Whether the tables of what is worked out are long enough.
    fn figures_fit(self, t: &Tables<'_>) -> bool
        ensures { result ≡ figures_shaped (sizes self) (lists t.now) }
    {
        let inputs = rows3(self.days, self.entries, self.users);
        let outputs = rows2(self.days, 48);
        let prevailing = rows2(48, self.days);
        let zone_figures = rows3(self.days, self.zones, self.users);
        let balances = rows2(self.days, self.users);
        let reconciliations = rows2(self.zones, self.users);
        let months = rows3(self.months, self.zones, self.users);
        t.inputs.len() >= inputs
            && t.outputs.len() >= outputs
            && t.prevailing.len() >= prevailing
            && t.zone_figures.len() >= zone_figures
            && t.balances.len() >= balances
            && t.reconciliations.len() >= reconciliations
            && t.months.len() >= months
    }

    /// Whether no table is short.
    #[tactic(auto, unfolding(crate::specs::Shape::shaped))]
    fn fit(self, t: &Tables<'_>) -> bool
        ensures { result ≡ shaped (sizes self) (lists t.now) }
    {
        let records = self.records_fit(t);
        let figures = self.figures_fit(t);
        records && figures
    }

    /// Refuses tables of which one is short.
    #[tactic(auto, using(crate::proofs::Long::long))]
    pub(crate) fn fitting(self, t: &Tables<'_>) -> Result<(), Fault>
        ensures { MatchResult result (λ _. Long (sizes self) (lists t.now)) (λ e. (shaped (sizes self) (lists t.now) ≡ false) × (e ≡ Fault.BadTable)) }
    {
        if self.fit(t) {
            Ok(())
        } else {
            Err(Fault::BadTable)
        }
    }
}
