//! From a seed to the bytes of a script.
ghost use Rattle.std.specs.Prelude.{◌≡◌, ◌≤◌, ◌++◌, IfOk, OnOk, string_bytes};
ghost use Rattle.script_generator.specs.Generator.{dialect_name, front_lines, generated_script, seed_dialect};

use crate::stanza::{number_behind, push_stanza, stanza_of};
use conn_model::Dialect;
use std::alloc::{AllocError, Global};

/// The dialect of a seed: each third one has the same.
fn dialect_of(seed: u64) -> Dialect
    ensures { result ≡ seed_dialect seed }
{
    match seed % 3 {
        0 => Dialect::Pg,
        1 => Dialect::Mysql,
        _ => Dialect::Sqlite,
    }
}

/// The name of a dialect in a script.
fn name_of(dialect: Dialect) -> &'static str
    ensures { result.now ≡ dialect_name dialect }
{
    match dialect {
        Dialect::Pg => "pg",
        Dialect::Mysql => "mysql",
        Dialect::Sqlite => "sqlite",
    }
}

/// Adds the first two lines, which say how the pool is made and take its one connection out.
fn push_front(text: &mut String, dialect: Dialect) -> Result<(), AllocError>
    ensures { OnOk result (string_bytes text.new ≡ string_bytes text.old ++ front_lines dialect) }
{
    let name = name_of(dialect);
    write!(text, "session {name} 1 nop nocheck\nget\n")
}

/// The bytes of the script that the seed generates, with so many stanzas between a `get` and a `put`. The seed decides the
/// dialect and each stanza. Only want of memory is an error.
pub fn generate(alloc: Global, seed: u64, count: u32) -> Result<Vec<u8>, AllocError>
    requires { count ≤ 100000 }
    ensures { IfOk result (λ bytes. bytes.items ≡ generated_script seed count) }
{
    let mut text = String::new(alloc);
    push_front(&mut text, dialect_of(seed))?;
    let mut x = seed;
    for i in 0..count {
        x = number_behind(x);
        push_stanza(&mut text, stanza_of(x), i)?;
    }
    text.push_str("put 0\n")?;
    Ok(text.into_bytes())
}
