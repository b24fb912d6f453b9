//! Values by their keys.
ghost use Rattle.std.specs.Prelude.{◌≡◌, ◌≤◌, None, Some, OnOk, if◌then◌else◌};
ghost use Rattle.std.specs.Option.{option_copied};
ghost use Rattle.conn_script.specs.Tables.{value_at};

use std::alloc::{AllocError, Global};
use std::collections::HashMap;
use std::hash::Hash;
use std::marker::Model;

/// Values by key, found by the key's hash. Room is taken before a value is put, which then can't
/// fail.
#[derive(Drop)]
pub struct Table<K: Eq + Hash, V> {
    entries: HashMap<K, V>,
}

impl<K: Eq + Hash, V> Model for Table<K, V> {
    ghost use Rattle.conn_script.specs.Tables.{Table};
    ghost use Rattle.std.specs.HashMap as hash;

    ghost Value = { Table K V };

    ghost view = { λ t. record {
      entries = t.entries.entries;
      room = hash.spare t.entries;
    } };
}

impl<K: Eq + Hash + Drop, V: Drop> Table<K, V> {
    /// No key has a value.
    pub fn new(alloc: Global) -> Table<K, V>
        ensures { (key : K) → value_at K.eq result key ≡ None }
    {
        Table {
            entries: HashMap::new(alloc),
        }
    }

    /// The value of the key, where it has one.
    pub fn get(&self, key: &K) -> Option<&V>
        ensures { option_copied result ≡ value_at K.eq self.now key.now }
    {
        self.entries.get(key)
    }

    /// Takes the memory for one key more.
    pub fn reserve(&mut self) -> Result<(), AllocError>
        ensures same { (key : K) → value_at K.eq self.new key ≡ value_at K.eq self.old key }
        ensures room { OnOk result (1 ≤ self.new.room) }
    {
        self.entries.reserve(1)
    }

    /// Puts the value of a key.
    pub fn put(&mut self, key: K, value: V)
        requires { 1 ≤ self.old.room }
        ensures { (other : K) → value_at K.eq self.new other
            ≡ (if K.eq key other then Some value else value_at K.eq self.old other) }
    {
        let _ = self.entries.insert(key, value);
    }
}
