//! What a client tells a MySQL server that it can do.
ghost use Rattle.std.specs.Prelude.{◌≡◌};

use bitflags::{Flag, Flags, bitflag_items};

/// What a client can do or asks for, one bit for each. The names and the bits are those of the protocol.
#[derive(Clone, Copy)]
pub struct CapabilityFlags(u32);

bitflag_items! {
    impl CapabilityFlags: u32 {
        const CLIENT_LONG_PASSWORD = 1;
        /// An update counts the rows that it found, and not only those that it changed.
        const CLIENT_FOUND_ROWS = 2;
        const CLIENT_LONG_FLAG = 4;
        const CLIENT_CONNECT_WITH_DB = 8;
        const CLIENT_NO_SCHEMA = 16;
        const CLIENT_COMPRESS = 32;
        const CLIENT_ODBC = 64;
        const CLIENT_LOCAL_FILES = 128;
        const CLIENT_IGNORE_SPACE = 256;
        const CLIENT_PROTOCOL_41 = 512;
        const CLIENT_INTERACTIVE = 1024;
        const CLIENT_SSL = 2048;
        const CLIENT_IGNORE_SIGPIPE = 4096;
        const CLIENT_TRANSACTIONS = 8192;
        const CLIENT_RESERVED = 16384;
        const CLIENT_SECURE_CONNECTION = 32768;
        const CLIENT_MULTI_STATEMENTS = 65536;
        const CLIENT_MULTI_RESULTS = 131072;
        const CLIENT_PS_MULTI_RESULTS = 262144;
        const CLIENT_PLUGIN_AUTH = 524288;
        const CLIENT_CONNECT_ATTRS = 1048576;
        const CLIENT_PLUGIN_AUTH_LENENC_CLIENT_DATA = 2097152;
        const CLIENT_CAN_HANDLE_EXPIRED_PASSWORDS = 4194304;
        const CLIENT_SESSION_TRACK = 8388608;
        const CLIENT_DEPRECATE_EOF = 16777216;
    }
}

impl Flags for CapabilityFlags {
    ghost use Rattle.std.specs.Prelude.{⊤};
    ghost use Rattle.mysql_url.specs.Capabilities.{capability_table};

    type Bits = u32;

    ghost exact = { ⊤ };

    ghost table = { capability_table };

    ghost set_of = { λ f. f.0 };

    fn flags<'a>() -> &'a [Flag<CapabilityFlags>] {
        CapabilityFlags::FLAGS
    }

    fn bits(&self) -> u32 {
        self.0
    }

    fn from_bits_retain(bits: u32) -> CapabilityFlags {
        CapabilityFlags(bits)
    }
}
