//! Measurements and factors of an open Day.
ghost use Rattle.std.specs.Prelude.{◌≡◌, ◌*◌, ◌<◌, length, IfOk};
ghost use Rattle.ledger.specs.Grounds.{told};
ghost use Rattle.settlement.specs.DayRecords.{entry_measurement_after, entry_measurement_ground, measurement_ground, open_day, profile_after, profile_ground, weather_after, weather_ground, zone_measurement_after, zone_measurement_ground};
ghost use Rattle.settlement.specs.Shape.{Long};
ghost use Rattle.settlement.specs.State.{Lent, held, lists, sizes};

use crate::fault::Fault;
use crate::live::Live;
use crate::rows::{Profile, Weather};
use crate::tables::Tables;
use crate::terms::{EntryMeasurementTerms, ProfileTerms, WeatherTerms, ZoneMeasurementTerms};
use ledger::range::{factor_in, number_in, quantity_in};
use ledger::table::place2;

/// The largest measurement, statement or trade, in kWh.
pub(crate) const MAX_QUANTITY: u64 = 50_000_000;

const MIN_CV: u64 = 300;

const MAX_CV: u64 = 450;

const MAX_ALP: u64 = 5_000;

/// The largest DAF or WCF, either way.
const MAX_FACTOR: u64 = 2_000;

const BANDS: u16 = 9;

impl<R> Live<R> {
    /// The Day, where it is in the book and open.
    pub(crate) fn open_day(&self, day: i64) -> Result<u16, Fault>
        ensures answer { result ≡ open_day (sizes self.now.counts) self.now.closed day }
        ensures inside { IfOk result (λ d. d < self.now.counts.days) }
    {
        let day = number_in(day, 0, self.counts.days - 1).ok_or(Fault::NoSuchDay)?;
        if day < self.closed {
            return Err(Fault::DayClosed);
        }
        Ok(day)
    }

    /// The row of a measurement at one of so many entry points or zones, and the quantity.
    // Inlined at both its callers: as a call it cost a measurement some fifty instructions more.
    #[inline(always)]
    fn measurement_ground(
        &self,
        t: &Tables<'_>,
        places: u16,
        day: i64,
        place: i64,
        quantity: i64,
    ) -> Result<(usize, u64), Fault>
        ensures answer { result ≡ measurement_ground (sizes self.now.counts) (held self.now t.now) places day place quantity }
        ensures inside { IfOk result (λ p. p.0 < self.now.counts.days * places) }
        ensures long { IfOk result (λ _. Long (sizes self.now.counts) (lists t.now)) }
    {
        self.counts.fitting(t)?;
        let q = quantity_in(quantity, 0, MAX_QUANTITY).ok_or(Fault::OutsideLimits)?;
        let p = number_in(place, 1, places).ok_or(Fault::NotInBook)?;
        let d = self.open_day(day)?;
        Ok((place2(places, d, p - 1), q))
    }

    /// What was measured at an entry point.
    pub fn measure_entry(
        &self,
        t: &mut Tables<'_>,
        terms: EntryMeasurementTerms,
    ) -> Result<(), Fault>
        ensures answer { result ≡ told (entry_measurement_ground (sizes self.now.counts) (held self.now t.old) terms) }
        ensures after { held self.now t.new ≡ entry_measurement_after (sizes self.now.counts) (held self.now t.old) terms }
        ensures lent { Lent t.old t.new }
    {
        let EntryMeasurementTerms {
            day,
            entry,
            quantity,
        } = terms;
        let (row, q) = self.measurement_ground(t, self.counts.entries, day, entry, quantity)?;
        t.entry_measurements[row] = Some(q);
        Ok(())
    }

    /// What was measured of a zone.
    pub fn measure_zone(&self, t: &mut Tables<'_>, terms: ZoneMeasurementTerms) -> Result<(), Fault>
        ensures answer { result ≡ told (zone_measurement_ground (sizes self.now.counts) (held self.now t.old) terms) }
        ensures after { held self.now t.new ≡ zone_measurement_after (sizes self.now.counts) (held self.now t.old) terms }
        ensures lent { Lent t.old t.new }
    {
        let ZoneMeasurementTerms {
            day,
            zone,
            quantity,
        } = terms;
        let (row, q) = self.measurement_ground(t, self.counts.zones, day, zone, quantity)?;
        t.zone_measurements[row] = Some(q);
        Ok(())
    }

    /// The row of a zone's weather, and the weather.
    fn weather_ground(&self, t: &Tables<'_>, terms: WeatherTerms) -> Result<(usize, Weather), Fault>
        ensures answer { result ≡ weather_ground (sizes self.now.counts) (held self.now t.now) terms }
        ensures inside { IfOk result (λ p. p.0 < length t.now.weather.now) }
    {
        self.counts.fitting(t)?;
        let cv = quantity_in(terms.cv, MIN_CV, MAX_CV).ok_or(Fault::OutsideLimits)?;
        let wcf = factor_in(terms.wcf, MAX_FACTOR).ok_or(Fault::OutsideLimits)?;
        let z = number_in(terms.zone, 1, self.counts.zones).ok_or(Fault::NotInBook)?;
        let d = self.open_day(terms.day)?;
        Ok((place2(self.counts.zones, d, z - 1), Weather { cv, wcf }))
    }

    /// A zone's calorific value and weather correction factor.
    pub fn weather(&self, t: &mut Tables<'_>, terms: WeatherTerms) -> Result<(), Fault>
        ensures answer { result ≡ told (weather_ground (sizes self.now.counts) (held self.now t.old) terms) }
        ensures after { held self.now t.new ≡ weather_after (sizes self.now.counts) (held self.now t.old) terms }
        ensures lent { Lent t.old t.new }
    {
        let (row, weather) = self.weather_ground(t, terms)?;
        t.weather[row] = Some(weather);
        Ok(())
    }

    /// The row of a band's profile, and the profile.
    // No twin of `weather_ground`: a band is a value, so it is asked for before the factors, where a zone comes after them.
    fn profile_ground(&self, t: &Tables<'_>, terms: ProfileTerms) -> Result<(usize, Profile), Fault>
        ensures answer { result ≡ profile_ground (sizes self.now.counts) (held self.now t.now) terms }
        ensures inside { IfOk result (λ p. p.0 < length t.now.profiles.now) }
    {
        self.counts.fitting(t)?;
        let b = number_in(terms.band, 1, BANDS).ok_or(Fault::OutsideLimits)?;
        let alp = quantity_in(terms.alp, 0, MAX_ALP).ok_or(Fault::OutsideLimits)?;
        let daf = factor_in(terms.daf, MAX_FACTOR).ok_or(Fault::OutsideLimits)?;
        let d = self.open_day(terms.day)?;
        Ok((place2(BANDS, d, b - 1), Profile { alp, daf }))
    }

    /// A band's annual load profile and daily adjustment factor.
    pub fn profile(&self, t: &mut Tables<'_>, terms: ProfileTerms) -> Result<(), Fault>
        ensures answer { result ≡ told (profile_ground (sizes self.now.counts) (held self.now t.old) terms) }
        ensures after { held self.now t.new ≡ profile_after (sizes self.now.counts) (held self.now t.old) terms }
        ensures lent { Lent t.old t.new }
    {
        let (row, profile) = self.profile_ground(t, terms)?;
        t.profiles[row] = Some(profile);
        Ok(())
    }
}
