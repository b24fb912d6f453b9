//! The place of each key.
ghost use Rattle.std.specs.Prelude.{◌≡◌, ◌≤◌, Some, None, OnOk, if◌then◌else◌};
ghost use Rattle.conn_cache.specs.declared.key.StatementCacheKey.{StatementCacheKey as key_type};
ghost use Rattle.conn_cache.specs.Keys.{KeyPlaces, place_at, same_key};

use crate::StatementCacheKey;
use std::alloc::{AllocError, Global};
use std::collections::HashMap;
use std::marker::Model;

/// Keys with their places, found by their hash.
#[derive(Drop)]
pub struct KeyTable {
    places: HashMap<StatementCacheKey, usize>,
}

impl Model for KeyTable {
    ghost use Rattle.conn_cache.specs.Keys.{KeyPlaces};
    ghost use Rattle.std.specs.HashMap as hash;

    ghost Value = { KeyPlaces };

    ghost view = { λ t. record {
      places = t.places.entries;
      room = hash.spare t.places;
    } };
}

impl KeyTable {
    /// No key has a place.
    pub fn new(alloc: Global) -> KeyTable
        ensures { (key : key_type) → place_at result key ≡ None }
    {
        KeyTable {
            places: HashMap::new(alloc),
        }
    }

    /// The place of the key, where it has one.
    pub fn find(&self, key: &StatementCacheKey) -> Option<usize>
        ensures { result ≡ place_at self.now key.now }
    {
        self.places.get(key).copied()
    }

    /// Takes the memory for one further key.
    pub fn reserve(&mut self) -> Result<(), AllocError>
        ensures same { (key : key_type) → place_at self.new key ≡ place_at self.old key }
        ensures room { OnOk result (1 ≤ self.new.room) }
    {
        self.places.reserve(1)
    }

    /// Puts the place of a key.
    pub fn add(&mut self, key: StatementCacheKey, place: usize)
        requires { 1 ≤ self.old.room }
        ensures { (other : key_type) → place_at self.new other
            ≡ (if same_key key other then Some place else place_at self.old other) }
    {
        let _ = self.places.insert(key, place);
    }

    /// No key has a place from now on.
    pub fn clear(&mut self)
        ensures { (key : key_type) → place_at self.new key ≡ None }
    {
        self.places.clear();
    }
}
