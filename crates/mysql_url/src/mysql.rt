//! What is of MySQL alone.

pub mod connection;
