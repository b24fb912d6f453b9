//! Places by text.
ghost use Rattle.std.specs.Prelude.{◌≡◌, ℕ, List, Some, None, OnOk, OnErr, string_bytes, if◌then◌else◌};
ghost use Rattle.conn_model.specs.Classes.{same_text};
ghost use Rattle.conn_server.specs.RowTables.{text_place};

use std::alloc::{AllocError, Global};
use std::collections::HashMap;
use std::marker::Model;

/// A finite map from texts to places, found by their hash.
#[derive(Drop)]
pub struct TextPlaces {
    places: HashMap<String, usize>,
}

impl Model for TextPlaces {
    ghost use Rattle.std.specs.Prelude.{map, string_bytes};
    ghost use Rattle.conn_server.specs.RowTables.{TextPlaces as places_seen};

    ghost Value = { places_seen };

    ghost view = { λ t. record { places = map (λ e. (string_bytes e.0, e.1)) t.places.entries } };
}

impl TextPlaces {
    /// No text has a place.
    pub fn new(alloc: Global) -> Self
        ensures { (text : List ℕ) → text_place result text ≡ None }
    {
        TextPlaces {
            places: HashMap::new(alloc),
        }
    }

    /// The place of the text, where it has one.
    pub fn get(&self, text: &str) -> Option<usize>
        ensures { result ≡ text_place self.now text.now }
    {
        self.places.get(text).copied()
    }

    /// Puts the place of a text that may be new.
    pub fn put(&mut self, text: String, place: usize) -> Result<(), AllocError>
        ensures puts { OnOk result ((other : List ℕ) → text_place self.new other
            ≡ (if same_text (string_bytes text) other
            then Some place else text_place self.old other)) }
        ensures same { OnErr result (self.new ≡ self.old) }
    {
        let Ok(_) = self.places.insert(text, place) else {
            return Err(AllocError);
        };
        Ok(())
    }
}
