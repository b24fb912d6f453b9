//! The options of a connection.
ghost use Rattle.std.specs.Prelude.{◌≡◌, option_copied};
ghost use Rattle.mysql_url.specs.Options.{options_in, target_of};
ghost use Rattle.mysql_url.specs.Outcomes.{GivesOrMemory};

use crate::mysql::connection::flags::CapabilityFlags;
use crate::mysql::connection::reading::{options_in_url, url_in};
use bitflags::Flags;
use conn_model::{MysqlTarget, Target, Text};
use conn_result::ConnectionResult;
use std::alloc::Global;

/// What a URL says of a connection to a MySQL server. It isn't printed, since it has a password.
#[derive(Drop)]
pub struct ConnectionOptions {
    pub(crate) host: Option<Text>,
    pub(crate) user: Text,
    pub(crate) password: Option<Text>,
    pub(crate) database: Option<Text>,
    pub(crate) port: Option<u16>,
    pub(crate) unix_socket: Option<Text>,
    pub(crate) client_flags: CapabilityFlags,
}

impl ConnectionOptions {
    /// Reads `mysql://[[user]:[password]@]host[:port][/database][?unix_socket=socket-path]`. Which options it gives,
    /// or why it refuses, is a function of the text; only want of memory comes besides.
    pub fn parse(alloc: Global, database_url: &str) -> ConnectionResult<ConnectionOptions>
        ensures { GivesOrMemory result (options_in database_url.now) }
    {
        let url = url_in(alloc, database_url)?;
        options_in_url(alloc, &url)
    }

    /// The name or the address of the server; none where a socket stands for `localhost`.
    pub fn host(&self) -> Option<&str>
        ensures { option_copied result ≡ self.now.host }
    {
        Some(self.host.as_ref()?.as_str())
    }

    /// The user's name, empty where the URL has none.
    pub fn user(&self) -> &str
        ensures { result.now ≡ self.now.user }
    {
        self.user.as_str()
    }

    /// The password, never an empty one.
    pub fn password(&self) -> Option<&str>
        ensures { option_copied result ≡ self.now.password }
    {
        Some(self.password.as_ref()?.as_str())
    }

    /// The database, as the URL's path writes it.
    pub fn database(&self) -> Option<&str>
        ensures { option_copied result ≡ self.now.database }
    {
        Some(self.database.as_ref()?.as_str())
    }

    /// The port.
    pub fn port(&self) -> Option<u16>
        ensures { result ≡ self.now.port }
    {
        self.port
    }

    /// The path of the socket of a server on the same machine.
    pub fn unix_socket(&self) -> Option<&str>
        ensures { option_copied result ≡ self.now.unix_socket }
    {
        Some(self.unix_socket.as_ref()?.as_str())
    }

    /// What the client tells the server that it can do. No URL says so: it is `CLIENT_FOUND_ROWS`.
    pub fn client_flags(&self) -> CapabilityFlags
        ensures { result ≡ self.now.client_flags }
    {
        self.client_flags
    }

    /// Where a connector is to connect to by these options.
    pub fn into_target(self) -> Target
        ensures { result ≡ target_of self }
    {
        let ConnectionOptions {
            host,
            user,
            password,
            database,
            port,
            unix_socket,
            client_flags,
        } = self;
        Target::Mysql(MysqlTarget {
            host,
            port,
            user,
            password,
            database,
            unix_socket,
            flags: client_flags.bits(),
        })
    }
}
