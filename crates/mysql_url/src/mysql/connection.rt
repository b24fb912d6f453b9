//! What a connection to a MySQL server is opened by.

mod flags;
mod host;
mod options;
mod path;
mod query;
mod reading;
mod strings;

pub use flags::CapabilityFlags;
pub use options::ConnectionOptions;
