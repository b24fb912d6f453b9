//! What a cache of statements keeps beside them.
use crate::{BindTypes, Text};

/// Whether a cache keeps the statements that are prepared through it.
#[derive(Clone, Copy, Debug, PartialEq, Eq)]
pub enum CacheSize {
    /// It keeps that of each query that is safe to keep.
    Unbounded,
    /// It keeps none.
    Disabled,
}

/// What is kept beside a statement: the query's number, its text and types, and the counter under which it was prepared.
#[derive(Debug, Drop)]
pub struct CacheEntry {
    pub id: Option<u64>,
    pub sql: Text,
    pub types: BindTypes,
    pub counter: u64,
}
