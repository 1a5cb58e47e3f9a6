ghost use Rattle.std.specs.Prelude.{◌≡◌, ◌≢◌, ◌*◌, ◌<◌, ◌≤◌, ◌∷◌, [], IfNone, IfOk, IfSome, ℕ, false, length, replicate, slice_index_or, slice_set, true};
ghost use Rattle.manager.specs.Owed.{owe_from, places_of};

use data_queue::Change;
use mig_base::OutOfMemory;
use std::alloc::Global;
use std::marker::Model;

/// How many places have a count of their own.
const GROUP: usize = 512;

/// What is owed to the destination: of each of so many places whether it is. Contracts see the list.
#[derive(Drop)]
pub(crate) struct Owed {
    places: Vec<bool>,
    // How many of them are owed.
    count: u32,
    // And how many of each 512 of them, so that the lowest is found without a look at all others.
    counts: Vec<u32>,
}

impl Model for Owed {
    ghost use Rattle.std.specs.Prelude.{Bool, List};
    ghost use Rattle.manager.specs.Owed.{IsCounted};

    ghost Value = { List Bool };

    ghost view = { λ o. o.places.items };

    ghost invariant = { λ o. IsCounted o.count o.counts.items o.places.items };
}

impl Owed {
    /// None of so many places is owed.
    pub(crate) fn make(alloc: Global, size: u32) -> Result<Owed, OutOfMemory>
        ensures { IfOk result (λ o. o ≡ replicate size false) }
    {
        let groups = size as usize / GROUP + 1;
        let mut counts = Vec::with_capacity(alloc, groups)?;
        for _ in 0..groups {
            counts.push_reserved(0);
        }
        Ok(Owed {
            places: none_owed(alloc, size)?,
            count: 0,
            counts,
        })
    }

    /// All are.
    pub(crate) fn owe_all(&mut self)
        requires { length self.old ≤ 131072 }
        ensures { self.new ≡ replicate (length self.old) true }
    {
        for place in 0..self.size() {
            self.owe(place);
        }
    }

    /// None is any more.
    pub(crate) fn owe_none(&mut self)
        ensures { self.new ≡ replicate (length self.old) false }
    {
        'lowest: while self.take_lowest().is_some() {}
    }

    /// How many places there are.
    pub(crate) fn size(&self) -> u32
        requires { length self.now ≤ 131072 }
        ensures { result ≡ length self.now }
    {
        self.places.len() as u32
    }

    /// How many are owed.
    pub(crate) fn count(&self) -> u32
        ensures { result ≡ length (places_of self.now) }
    {
        self.count
    }

    /// Whether a place is owed.
    pub(crate) fn contains(&self, place: u32) -> bool
        requires { place < length self.now }
        ensures { result ≡ slice_index_or self.now place false }
    {
        self.places[place as usize]
    }

    /// A place is owed.
    pub(crate) fn owe(&mut self, place: u32)
        requires { place < length self.old }
        ensures { self.new ≡ slice_set self.old place true }
    {
        let at = place as usize;
        if self.places[at] {
            return;
        }
        self.places[at] = true;
        self.count += 1;
        self.counts[at / GROUP] += 1;
    }

    /// The blocks of a change are owed, as far as there are such places.
    pub(crate) fn owe_span(&mut self, change: Change)
        requires { (change.span.first < 131072) × (change.span.count ≤ 64) × (length self.old ≤ 131072) }
        ensures owed { self.new ≡ owe_from change.span.first change.span.count self.old }
        ensures long { length self.new ≡ length self.old }
    {
        for i in 0..change.span.count {
            if change.span.first + i < self.size() {
                self.owe(change.span.first + i);
            }
        }
    }

    /// The lowest place that is owed, which then isn't owed any more: `None` exactly where none is.
    pub(crate) fn take_lowest(&mut self) -> Option<u32>
        ensures none { IfNone result ((places_of self.old ≡ []) × (self.new ≡ self.old)) }
        ensures some { IfSome result (λ place. (place < length self.old) × (places_of self.old ≡ place ∷ places_of self.new)) }
        ensures taken { IfSome result (λ place. self.new ≡ slice_set self.old place false) }
    {
        if self.count == 0 {
            return None;
        }
        let group = first_counted(&self.counts);
        let at = first_owed(&self.places, GROUP * group);
        self.places[at] = false;
        self.count -= 1;
        self.counts[group] -= 1;
        Some(at as u32)
    }
}

/// So many places, none of which is owed.
fn none_owed(alloc: Global, size: u32) -> Result<Vec<bool>, OutOfMemory>
    ensures { IfOk result (λ places. places.items ≡ replicate size false) }
{
    let mut places = Vec::with_capacity(alloc, size as usize)?;
    for _ in 0..size {
        places.push_reserved(false);
    }
    Ok(places)
}

/// The first count that isn't zero, or how many counts there are.
fn first_counted(counts: &Vec<u32>) -> usize
    ensures there { result ≤ length counts.now.items }
    ensures none { (i : ℕ) → i < result → slice_index_or counts.now.items i 0 ≡ 0 }
    ensures some { result < length counts.now.items → 0 < slice_index_or counts.now.items result 0 }
{
    for at in 0..counts.len() {
        if counts[at] != 0 {
            return at;
        }
    }
    counts.len()
}

/// The first place from one on that is owed, or how many places there are.
fn first_owed(places: &Vec<bool>, from: usize) -> usize
    requires { from ≤ length places.now.items }
    ensures there { (from ≤ result) × (result ≤ length places.now.items) }
    ensures none { (i : ℕ) → from ≤ i → i < result → slice_index_or places.now.items i false ≡ false }
    ensures owed { result < length places.now.items → slice_index_or places.now.items result false ≡ true }
{
    for at in from..places.len() {
        if places[at] {
            return at;
        }
    }
    places.len()
}
