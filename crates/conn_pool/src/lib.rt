//! A pool of connections: its slots, who opens and closes what they keep, and what is handed out.
#![tactic(auto)]

mod checkout;
mod connection_manager;
mod customizers;
mod manage;
mod pool_core;
mod pooled;
mod slot;

pub use checkout::{prepare, put_back, try_get};
pub use conn_result::pool::{Error, PoolError};
pub use connection_manager::{ConnectionManager, Managing};
pub use customizers::{BeginCustomizer, NopConnectionCustomizer, TestCustomizer};
pub use manage::{CustomizeConnection, ManageConnection};
pub use pool_core::{PoolCore, State};
pub use pooled::PooledConnection;
pub use slot::Slot;
