//! A record of another crate in a register.
#![tactic(auto)]

ghost use Rattle.std.specs.Prelude.{◌≡◌};
ghost use Rattle.ledger.specs.SlotLaws.{RegisterLaws};
ghost use Rattle.ledger.specs.Slots.{put_answer, put_after, found, taken_out};
ghost use Rattle.ledger_uses.specs.Parcels.{place_of, week_of, placed, in_week};
ghost use Rattle.std.proofs.Common.{rules};

use ledger::register::{Full, Keyed, Register, register_laws};

#[derive(Clone, Copy, Debug, PartialEq, Eq)]
pub struct Parcel {
    pub week: u32,
    pub shelf: u16,
    pub tray: u16,
    pub weight: u32,
}

#[derive(Clone, Copy, Debug, PartialEq, Eq)]
pub struct Place {
    pub week: u32,
    pub shelf: u16,
    pub tray: u16,
}

impl Keyed for Parcel {
    type Key = Place;

    type Group = u32;

    ghost key_of = { place_of };

    ghost group_of = { week_of };

    ghost keyed = { placed };

    ghost among = { in_week };

    ghost tells_key = { Prim.search rules };

    ghost tells_group = { Prim.search rules };

    fn key(&self) -> Place {
        Place {
            week: self.week,
            shelf: self.shelf,
            tray: self.tray,
        }
    }

    fn has_key(&self, key: Place) -> bool {
        self.key() == key
    }

    fn belongs(&self, group: u32) -> bool {
        self.week == group
    }
}

/// A parcel in the place of all of its week.
pub fn only(slots: &mut [Option<Parcel>], n: Parcel) -> Result<(), Full>
    ensures answer { result ≡ put_answer (placed (place_of n)) (taken_out (in_week n.week) slots.old) }
    ensures after { slots.new ≡ put_after (placed (place_of n)) n (taken_out (in_week n.week) slots.old) }
{
    let mut register = Register { slots };
    register.take_out(n.week);
    register.put(n)
}

/// What lies at a place.
pub fn held(slots: &mut [Option<Parcel>], place: Place) -> Option<Parcel>
    ensures value { result ≡ found (placed place) slots.old }
    ensures same { slots.new ≡ slots.old }
{
    let register = Register { slots };
    register.get(place)
}

/// What a register of parcels finds after each call.
pub fn parcel_laws()
    ensures { RegisterLaws place_of week_of placed in_week }
{
    register_laws::<Parcel>();
}

/// A register beside another table.
#[derive(Drop)]
pub struct Store<'a> {
    pub parcels: Register<'a, Parcel>,
    pub counts: &'a mut [u32],
}

/// Puts a parcel into a register that is one of several tables.
pub fn stow(store: &mut Store<'_>, p: Parcel) -> Result<(), Full>
    ensures answer { result ≡ put_answer (placed (place_of p)) store.old.parcels.slots.now }
    ensures after { store.new.parcels.slots.now ≡ put_after (placed (place_of p)) p store.old.parcels.slots.now }
    ensures counts { store.new.counts.now ≡ store.old.counts.now }
    ensures lent { store.new.parcels.slots.ghost_name ≡ store.old.parcels.slots.ghost_name }
{
    store.parcels.put(p)
}

/// What lies at a place.
pub fn look(store: &Store<'_>, place: Place) -> Option<Parcel>
    ensures value { result ≡ found (placed place) store.now.parcels.slots.now }
{
    store.parcels.get(place)
}

#[cfg(test)]
mod rule_tests;
#[cfg(test)]
mod tests;
