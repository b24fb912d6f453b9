//! The keys of a URL's query.
ghost use Rattle.std.specs.Prelude.{◌≡◌, IfOk};
ghost use Rattle.mysql_url.specs.Queries.{is_tls_key, keys_of, with_key};

use conn_model::Text;
use std::alloc::{AllocError, Global};
use url::Url;

/// What is known of the keys of a query.
#[derive(Drop)]
pub struct QueryKeys {
    pub has_database: bool,
    pub has_tls: bool,
    /// The last value of `unix_socket`.
    pub socket: Option<Text>,
}

/// Whether diesel reads an option of TLS under this key.
fn is_of_tls(name: &str) -> bool
    ensures { result ≡ is_tls_key name.now }
{
    name == "ssl_ca" || name == "ssl_cert" || name == "ssl_key" || name == "ssl_mode"
}

/// The keys with one pair more.
fn with_pair(
    alloc: Global,
    keys: QueryKeys,
    name: &str,
    value: &str,
) -> Result<QueryKeys, AllocError>
    ensures { IfOk result (λ more. more ≡ with_key keys name.now value.now) }
{
    let QueryKeys {
        has_database,
        has_tls,
        socket,
    } = keys;
    let socket = if name == "unix_socket" {
        Some(Text::new(alloc, value)?)
    } else {
        socket
    };
    Ok(QueryKeys {
        has_database: has_database || name == "database",
        has_tls: has_tls || is_of_tls(name),
        socket,
    })
}

/// What the keys of the URL's query say. Of equal keys the last counts, as in a map that they are put into.
pub fn keys_in(alloc: Global, url: &Url) -> Result<QueryKeys, AllocError>
    ensures { IfOk result (λ keys. keys ≡ keys_of url.now) }
{
    let mut keys = QueryKeys {
        has_database: false,
        has_tls: false,
        socket: None,
    };
    for pair in url.query_pairs() {
        let (name, value) = pair?;
        keys = with_pair(alloc, keys, name.as_str(), value.as_str())?;
    }
    Ok(keys)
}
