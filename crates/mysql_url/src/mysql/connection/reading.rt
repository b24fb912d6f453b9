//! From a text to the options, with each refusal in its order.
ghost use Rattle.url.specs.Parser.{parse_url};
ghost use Rattle.std.specs.Prelude.{None};
ghost use Rattle.mysql_url.specs.Options.{options_by, options_of, mysql_keys, url_or_fault};
ghost use Rattle.mysql_url.specs.Outcomes.{GivesOrMemory};

use crate::mysql::connection::flags::CapabilityFlags;
use crate::mysql::connection::host::host_in;
use crate::mysql::connection::options::ConnectionOptions;
use crate::mysql::connection::path::{database_in, has_segments_left};
use crate::mysql::connection::query::{QueryKeys, keys_in};
use crate::mysql::connection::strings::{credential_in, password_in, text_for_c};
use conn_result::{ConnectionError, ConnectionResult, UrlFault};
use std::alloc::Global;
use url::{ParseError, Url};

/// The URL that the text is. Where its parts have no room in a URL's record, memory was wanting.
pub fn url_in(alloc: Global, text: &str) -> ConnectionResult<Url>
    ensures { GivesOrMemory result (url_or_fault (parse_url None text.now)) }
{
    match Url::parse(alloc, text) {
        Ok(url) => Ok(url),
        Err(ParseError::OutOfMemory | ParseError::Overflow) => Err(ConnectionError::OutOfMemory),
        Err(_) => Err(ConnectionError::InvalidConnectionUrl(UrlFault::Unparsable)),
    }
}

/// The keys of the URL, where its scheme, path and keys are those of a MySQL URL. A database is named by the path
/// alone. There is no TLS here, and a key that asks for it is refused, so that nobody sends a password in the clear
/// who asked for more.
fn mysql_keys_in(alloc: Global, url: &Url) -> ConnectionResult<QueryKeys>
    ensures { GivesOrMemory result (mysql_keys url.now) }
{
    if url.scheme() != "mysql" {
        return Err(ConnectionError::InvalidConnectionUrl(UrlFault::Scheme));
    }
    if has_segments_left(url.path()) {
        return Err(ConnectionError::InvalidConnectionUrl(UrlFault::Segments));
    }
    let Ok(keys) = keys_in(alloc, url) else {
        return Err(ConnectionError::OutOfMemory);
    };
    if keys.has_database {
        return Err(ConnectionError::InvalidConnectionUrl(UrlFault::DatabaseKey));
    }
    if keys.has_tls {
        return Err(ConnectionError::InvalidConnectionUrl(UrlFault::TlsKey));
    }
    Ok(keys)
}

/// The options, where the URL is one of MySQL and its keys are these.
fn options_with(alloc: Global, url: &Url, keys: QueryKeys) -> ConnectionResult<ConnectionOptions>
    ensures { GivesOrMemory result (options_by url.now keys) }
{
    let QueryKeys {
        has_database: _,
        has_tls: _,
        socket,
    } = keys;
    let unix_socket = text_for_c(alloc, socket)?;
    let user = credential_in(alloc, url.username())?;
    let password = password_in(alloc, url)?;
    let Ok(database) = database_in(alloc, url.path()) else {
        return Err(ConnectionError::OutOfMemory);
    };
    let Ok(host) = host_in(alloc, unix_socket.as_ref(), url) else {
        return Err(ConnectionError::OutOfMemory);
    };
    Ok(ConnectionOptions {
        host,
        user,
        password,
        database,
        port: url.port(),
        unix_socket,
        client_flags: CapabilityFlags::CLIENT_FOUND_ROWS,
    })
}

/// The options of the URL.
pub fn options_in_url(alloc: Global, url: &Url) -> ConnectionResult<ConnectionOptions>
    ensures { GivesOrMemory result (options_of url.now) }
{
    let keys = mysql_keys_in(alloc, url)?;
    options_with(alloc, url, keys)
}
