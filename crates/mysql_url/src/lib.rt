//! What a MySQL URL says of a connection: where the server is, who asks, and for which database.
//!
//! The counterpart in diesel is `mysql/connection/url.rs`, which is private there. A module may not have
//! the name of a library that the crate uses, so there is none called `url`.
#![tactic(auto)]

pub mod mysql;

pub use mysql::connection::{CapabilityFlags, ConnectionOptions};
