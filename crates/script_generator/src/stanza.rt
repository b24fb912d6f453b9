//! The lines that one number chooses.
ghost use Rattle.std.specs.Prelude.{◌≡◌, ◌<◌, ◌++◌, OnOk, string_bytes};
ghost use Rattle.script_generator.specs.Generator.{next_number, stanza_by, stanza_of, stanza_text};

use std::alloc::AllocError;

/// What the lines of a stanza ask for.
#[derive(Clone, Copy, Debug, PartialEq, Eq)]
pub enum Stanza {
    Insert,
    Begin,
    Commit,
    Rollback,
    Select,
    /// In a block that ends.
    Update,
    /// In a block that fails.
    Delete,
}

/// The number behind a number.
pub fn number_behind(x: u64) -> u64
    ensures { result ≡ next_number x }
{
    x.wrapping_mul(6_364_136_223_846_793_005)
        .wrapping_add(1_442_695_040_888_963_407)
}

fn stanza_by(choice: u64) -> Stanza
    requires { choice < 8 }
    ensures { result ≡ stanza_by choice }
{
    match choice {
        0 | 1 => Stanza::Insert,
        2 => Stanza::Begin,
        3 => Stanza::Commit,
        4 => Stanza::Rollback,
        5 => Stanza::Select,
        6 => Stanza::Update,
        _ => Stanza::Delete,
    }
}

/// The stanza that a number chooses.
pub fn stanza_of(x: u64) -> Stanza
    ensures { result ≡ stanza_of x }
{
    stanza_by((x >> 33) % 8)
}

/// Adds the lines of a stanza, which is the one of number `i`.
pub fn push_stanza(text: &mut String, stanza: Stanza, i: u32) -> Result<(), AllocError>
    ensures { OnOk result (string_bytes text.new ≡ string_bytes text.old ++ stanza_text stanza i) }
{
    match stanza {
        Stanza::Insert => write!(text, "batch 0 INSERT {i}\n"),
        Stanza::Begin => text.push_str("begin 0\n"),
        Stanza::Commit => text.push_str("commit 0\n"),
        Stanza::Rollback => text.push_str("rollback 0\n"),
        Stanza::Select => write!(text, "batch 0 SELECT {i}\n"),
        Stanza::Update => write!(text, "transaction 0 plain\nbatch 0 UPDATE {i}\nend 0\n"),
        Stanza::Delete => write!(text, "transaction 0 plain\nbatch 0 DELETE {i}\nfail 0\n"),
    }
}
