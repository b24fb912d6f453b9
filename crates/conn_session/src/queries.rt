//! The queries of a script, as connections take them.
ghost use Rattle.std.specs.Prelude.{◌≡◌, ℕ, List, map, IfOk, OnOk};
ghost use Rattle.std.specs.Option.{option_copied};
ghost use Rattle.conn_model.specs.declared.value.Bind.{Bind};
ghost use Rattle.conn_reading.specs.Asking.{find_query, view_of};
ghost use Rattle.conn_reading.specs.Seats.{at_number};
ghost use Rattle.conn_session.specs.Finds.{with_placed};

use crate::row_shapes::ShapeReader;
use conn_cache::Query;
use conn_model::{Bind, BindType, BindTypes};
use conn_script::{Declared, Safety};
use std::alloc::{AllocError, Global};
use std::marker::Model;

/// A declared query with the types of its binds, seen as it was declared.
#[derive(Drop)]
pub struct ScriptQuery<'s> {
    declared: &'s Declared<'s>,
    types: BindTypes,
}

impl<'s> Model for ScriptQuery<'s> {
    ghost use Rattle.std.specs.Prelude.{◌≡◌, map};
    ghost use Rattle.conn_model.specs.declared.value.Bind.{Bind};
    ghost use Rattle.conn_script.specs.declared.query.Declared.{Declared as declared_type};

    ghost Value = { declared_type };

    ghost view = { λ q. q.declared.now };

    ghost invariant = { λ q. q.types ≡ map (λ (b : Bind). b.kind) q.declared.now.binds };
}

/// The types of the binds.
fn types_of(alloc: Global, binds: &[Bind]) -> Result<BindTypes, AllocError>
    ensures { IfOk result (λ types. types ≡ map (λ (b : Bind). b.kind) binds.now) }
{
    let mut types = BindTypes::new(alloc);
    for bind in binds {
        types.push(bind.kind)?;
    }
    Ok(types)
}

impl<'s> ScriptQuery<'s> {
    fn new(alloc: Global, declared: &'s Declared<'s>) -> Result<ScriptQuery<'s>, AllocError>
        ensures { IfOk result (λ q. q ≡ declared.now) }
    {
        let types = types_of(alloc, declared.binds.as_slice())?;
        Ok(ScriptQuery { declared, types })
    }
}

impl<'s> ScriptQuery<'s> {
    /// What its rows are read by.
    pub fn reader(&self) -> ShapeReader<'s>
        ensures { result ≡ self.now.shape }
    {
        ShapeReader::new(&self.declared.shape)
    }
}

impl<'s> Query for ScriptQuery<'s> {
    ghost use Rattle.std.specs.Prelude.{refl};
    ghost use Rattle.conn_reading.specs.Asking.{view_of};

    ghost view = { λ q. view_of q };

    fn sql(&self) -> &str {
        self.declared.text.as_str()
    }

    fn bind_types(&self) -> &[BindType] {
        self.types.as_slice()
    }

    fn binds(&self) -> &[Bind] {
        self.declared.binds.as_slice()
    }

    fn is_safe_to_cache_prepared(&self) -> bool {
        matches!(self.declared.safety, Safety::Safe)
    }

    fn has_changes(&self) -> bool {
        !matches!(self.declared.safety, Safety::NoChange)
    }

    fn query_id(&self) -> Option<u64> {
        self.declared.id
    }

    ghost law = { λ q. refl };
}

/// The queries that a script declares, each at the place of its number.
#[derive(Drop)]
pub struct Queries<'s> {
    declared: &'s [Declared<'s>],
    places: Vec<Option<ScriptQuery<'s>>>,
}

impl<'s> Model for Queries<'s> {
    ghost use Rattle.std.specs.Prelude.{List};
    ghost use Rattle.conn_script.specs.declared.query.Declared.{Declared as declared_type};
    ghost use Rattle.conn_session.specs.Finds.{FindsEach};

    ghost Value = { List declared_type };

    ghost view = { λ q. q.declared.now };

    ghost invariant = { λ q. FindsEach q.places.items q.declared.now };
}

/// Puts a query at the place of its number, unless one is there.
fn place<'s>(
    alloc: Global,
    places: &mut Vec<Option<ScriptQuery<'s>>>,
    query: &'s Declared<'s>,
) -> Result<(), AllocError>
    ensures { OnOk result ((n : ℕ) → at_number n places.new.items
        ≡ with_placed n query.now (at_number n places.old.items)) }
{
    let number = query.number as usize;
    while places.len() <= number {
        places.push(None)?;
    }
    if places[number].is_none() {
        places[number] = Some(ScriptQuery::new(alloc, query)?);
    }
    Ok(())
}

impl<'s> Queries<'s> {
    /// The queries of a script.
    pub fn new(alloc: Global, declared: &'s [Declared<'s>]) -> Result<Queries<'s>, AllocError>
        ensures { IfOk result (λ queries. queries ≡ declared.now) }
    {
        let mut places = Vec::new(alloc);
        for query in declared {
            place(alloc, &mut places, query)?;
        }
        Ok(Queries { declared, places })
    }

    /// The query of a number, where there is one.
    pub fn find(&self, number: u32) -> Option<&ScriptQuery<'s>>
        ensures { option_copied result ≡ find_query number self.now }
    {
        let place = number as usize;
        if place < self.places.len() {
            self.places[place].as_ref()
        } else {
            None
        }
    }
}
