//! Keys by their numbers, which are found in time that grows with the logarithm of how many they are.

ghost use Rattle.std.specs.Prelude.{◌≡◌, ◌<◌, ◌↔◌, [], IfOk, IsTrue, OnErr, OnOk, Some, cond};
ghost use Rattle.std.specs.Prelude.{length, not, slice_get, true, unwrap_or};
ghost use Rattle.std.specs.List.{list_any};
ghost use Rattle.std.specs.Ordering.{eq_by_cmp};
ghost use Rattle.std.specs.BTreeMap.{get};
ghost use Rattle.first_seen.specs.Keys.{with_key};
ghost use Rattle.first_seen.specs.Inner.{ArePlaces};

use std::alloc::{AllocError, Global};
use std::collections::BTreeMap;
use std::marker::Model;

/// Keys in the order in which they came, each once. Contracts see the list.
pub struct FirstSeen<K: Ord + Copy> {
    keys: Vec<K>,
    /// The number of each key.
    places: BTreeMap<K, usize>,
}

/// By hand, so that a caller's proof sees one call where the keys are let go.
impl<K: Ord + Copy> Drop for FirstSeen<K> {
    fn drop(self) {
        let FirstSeen { keys: _, places: _ } = self;
    }
}

impl<K: Ord + Copy> Model for FirstSeen<K> {
    ghost use Rattle.std.specs.Prelude.{List};
    ghost use Rattle.std.specs.BTreeMap.{get};
    ghost use Rattle.std.specs.Ordering.{eq_by_cmp};
    ghost use Rattle.first_seen.specs.Inner.{ArePlaces};

    ghost Value = { List K };

    ghost view = { λ seen. seen.keys.items };

    ghost invariant = { λ seen.
        ArePlaces (eq_by_cmp K.cmp) seen.keys.items (get K.cmp seen.places) };
}

/// The number of each key, of equal ones the last.
fn places_of<K: Ord + Copy>(alloc: Global, keys: &[K]) -> Result<BTreeMap<K, usize>, AllocError>
    ensures { IfOk result (λ places. ArePlaces (eq_by_cmp K.cmp) keys.now (get K.cmp places)) }
{
    let mut places = BTreeMap::new(alloc);
    for i in 0..keys.len() {
        places.insert(keys[i], i)?;
    }
    Ok(places)
}

/// The number of the key, which is `next` where there is none equal to it: one search.
fn place_of<K: Ord + Copy>(
    places: &mut BTreeMap<K, usize>,
    key: K,
    next: usize,
) -> Result<usize, AllocError>
    ensures place { IfOk result (λ place. place ≡ unwrap_or (get K.cmp places.old key) next) }
    ensures updates { IfOk result (λ place. (q : K) → get K.cmp places.new q
        ≡ cond (eq_by_cmp K.cmp key q) (Some place) (get K.cmp places.old q)) }
    ensures err { OnErr result ((q : K) → get K.cmp places.new q ≡ get K.cmp places.old q) }
{
    Ok(*places.entry(key)?.or_insert(next))
}

impl<K: Ord + Copy> FirstSeen<K> {
    /// No keys.
    pub fn new(alloc: Global) -> FirstSeen<K>
        ensures { result ≡ [] }
    {
        FirstSeen {
            keys: Vec::new(alloc),
            places: BTreeMap::new(alloc),
        }
    }

    /// The same keys.
    pub fn copy(&self) -> Result<FirstSeen<K>, AllocError>
        ensures { IfOk result (λ seen. seen ≡ self.now) }
    {
        let alloc = *self.keys.allocator();
        let keys = Vec::from_slice(alloc, self.keys.as_slice())?;
        let places = places_of(alloc, keys.as_slice())?;
        Ok(FirstSeen { keys, places })
    }

    /// The number of the key, which comes last where there is none equal to it; and whether it is
    /// new.
    pub fn insert_full(&mut self, key: K) -> Result<(usize, bool), AllocError>
        ensures keys { IfOk result (λ r. self.new ≡ with_key (eq_by_cmp K.cmp) self.old key) }
        ensures added { IfOk result (λ r. r.1 ≡ not (list_any (eq_by_cmp K.cmp key) self.old)) }
        ensures within { IfOk result (λ r. r.0 < length self.new) }
        ensures stored { IfOk result (λ r. (k : K) × (slice_get self.new r.0 ≡ Some k)
            × (eq_by_cmp K.cmp key k ≡ true)) }
        ensures err { OnErr result (self.new ≡ self.old) }
    {
        self.keys.reserve(1)?;
        let next = self.keys.len();
        let place = place_of(&mut self.places, key, next)?;
        let added = place == next;
        if added {
            self.keys.push(key)?;
        }
        Ok((place, added))
    }

    /// The key comes last where there is none equal to it; and whether it does.
    pub fn insert(&mut self, key: K) -> Result<bool, AllocError>
        ensures keys { OnOk result (self.new ≡ with_key (eq_by_cmp K.cmp) self.old key) }
        ensures added { IfOk result (λ added.
            added ≡ not (list_any (eq_by_cmp K.cmp key) self.old)) }
        ensures err { OnErr result (self.new ≡ self.old) }
    {
        let (_, added) = self.insert_full(key)?;
        Ok(added)
    }

    /// Whether there is a key equal to this one.
    pub fn contains(&self, key: &K) -> bool
        ensures { result ≡ list_any (eq_by_cmp K.cmp key.now) self.now }
    {
        self.places.contains_key(key)
    }

    /// The keys.
    pub fn as_slice(&self) -> &[K]
        ensures { result.now ≡ self.now }
    {
        self.keys.as_slice()
    }

    /// How many keys there are.
    pub fn len(&self) -> usize
        ensures { result ≡ length self.now }
    {
        self.keys.len()
    }

    /// Whether there are none.
    pub fn is_empty(&self) -> bool
        ensures { IsTrue result ↔ (self.now ≡ []) }
    {
        self.keys.is_empty()
    }
}
