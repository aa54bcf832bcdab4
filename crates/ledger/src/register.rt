//! Records with a key, in slots that a caller lends.
ghost use Rattle.std.specs.Prelude.{◌≡◌, Bool, Decides, find, position};
ghost use Rattle.ledger.specs.SlotLaws.{RegisterLaws};
ghost use Rattle.ledger.specs.Slots.{full_layer, full_number, filled, free, place_in, put_place, put_answer, put_after, found, freed, taken_out};

use crate::layer::Layer;

/// A record with a key. The key tells which group the record belongs to.
pub trait Keyed: Copy {
    type Key: Copy;

    type Group: Copy;

    ghost key_of: { Self → Self.Key };

    ghost group_of: { Self.Key → Self.Group };

    ghost keyed: { Self.Key → Self → Bool };

    ghost among: { Self.Group → Self → Bool };

    fn key(&self) -> Self::Key
        ensures { result ≡ key_of self.now };

    // The two tests have no body of their own here: it would ask the keys and groups of every record for `==`.
    fn has_key(&self, key: Self::Key) -> bool
        ensures { result ≡ keyed key self.now };

    fn belongs(&self, group: Self::Group) -> bool
        ensures { result ≡ among group self.now };

    ghost tells_key: { (k : Self.Key) (r : Self) → Decides (keyed k r) (key_of r ≡ k) };

    ghost tells_group: { (g : Self.Group) (r : Self) → Decides (among g r) (group_of (key_of r) ≡ g) };
}

/// The refusal of a new key where no slot is free.
#[derive(Clone, Copy, Debug, PartialEq, Eq)]
pub struct Full;

impl Full {
    pub fn number(self) -> u8
        ensures { result ≡ full_number self }
    {
        12
    }

    /// The layer that refuses.
    pub fn layer(self) -> Layer
        ensures { result ≡ full_layer self }
    {
        Layer::Register
    }
}

/// Keyed records in slots that are lent.
#[derive(Drop)]
pub struct Register<'a, R> {
    pub slots: &'a mut [Option<R>],
}

/// The first slot that holds a record with the key.
fn find_key<R: Keyed>(slots: &[Option<R>], key: R::Key) -> Option<usize>
    ensures { result ≡ position (filled (R.Keyed.keyed key)) slots.now }
{
    slots.iter().position(|slot| has_record(slot, key))
}

/// Whether a slot holds a record with the key.
fn has_record<R: Keyed>(slot: &Option<R>, key: R::Key) -> bool
    ensures { result ≡ filled (R.Keyed.keyed key) slot.now }
{
    slot.is_some_and(|x| x.has_key(key))
}

/// The first slot that holds a record with the key, as it stands.
fn first_with<R: Keyed>(slots: &[Option<R>], key: R::Key) -> Option<Option<R>>
    ensures { result ≡ find (filled (R.Keyed.keyed key)) slots.now }
{
    slots.iter().copied().find(|slot| has_record(slot, key))
}

/// The first record with the key.
#[tactic(auto, using(crate::proofs::SlotPlaces::found_is))]
fn find<R: Keyed>(slots: &[Option<R>], key: R::Key) -> Option<R>
    ensures { result ≡ found (R.Keyed.keyed key) slots.now }
{
    first_with(slots, key).flatten()
}

/// The first free slot.
fn find_free<R: Keyed>(slots: &[Option<R>]) -> Option<usize>
    ensures { result ≡ position free slots.now }
{
    slots.iter().position(|slot| slot.is_none())
}

/// Where a record with the key goes.
fn place_for<R: Keyed>(slots: &[Option<R>], key: R::Key) -> Option<usize>
    ensures { result ≡ place_in slots.now (put_place (R.Keyed.keyed key) slots.now) }
{
    if let Some(at) = find_key(slots, key) {
        return Some(at);
    }
    find_free(slots)
}

/// What is left of a slot when a group is taken out.
fn without<R: Keyed>(slot: Option<R>, group: R::Group) -> Option<R>
    ensures { result ≡ freed (R.Keyed.among group) slot }
{
    slot.filter(|x| !x.belongs(group))
}

/// Frees the slot of each record of the group.
fn free_group<R: Keyed>(slots: &mut [Option<R>], group: R::Group)
    ensures { slots.new ≡ taken_out (R.Keyed.among group) slots.old }
{
    for slot in slots.iter_mut() {
        *slot = without(*slot, group);
    }
}

impl<'a, R: Keyed> Register<'a, R> {
    fn place(&self, key: R::Key) -> Option<usize>
        ensures { result ≡ place_in self.now.slots.now (put_place (R.Keyed.keyed key) self.now.slots.now) }
    {
        place_for(self.slots, key)
    }

    /// Puts a record in the place of the first one with its key, else into the first free slot.
    pub fn put(&mut self, r: R) -> Result<(), Full>
        ensures answer { result ≡ put_answer (R.Keyed.keyed (R.Keyed.key_of r)) self.old.slots.now }
        ensures after { self.new.slots.now ≡ put_after (R.Keyed.keyed (R.Keyed.key_of r)) r self.old.slots.now }
        ensures lent { self.new.slots.ghost_name ≡ self.old.slots.ghost_name }
    {
        match self.place(r.key()) {
            Some(at) => {
                self.slots[at] = Some(r);
                Ok(())
            }
            None => Err(Full),
        }
    }

    /// The first record with the key.
    pub fn get(&self, key: R::Key) -> Option<R>
        ensures { result ≡ found (R.Keyed.keyed key) self.now.slots.now }
    {
        find(self.slots, key)
    }

    /// Frees the slot of each record of the group.
    pub fn take_out(&mut self, group: R::Group)
        ensures after { self.new.slots.now ≡ taken_out (R.Keyed.among group) self.old.slots.now }
        ensures lent { self.new.slots.ghost_name ≡ self.old.slots.ghost_name }
    {
        free_group(self.slots, group);
    }
}

/// What a register finds after each call.
pub fn register_laws<R: Keyed>()
    ensures { RegisterLaws R.Keyed.key_of R.Keyed.group_of R.Keyed.keyed R.Keyed.among }
{}
