//! What the words of a command line ask for.
ghost use Rattle.std.specs.Prelude.{◌≡◌, map, string_bytes, IfSome};
ghost use Rattle.conn_session.specs.Tasks.{generation_of, task_of, HasFewStanzas};

use conn_model::{number_u32, number_u64};

/// The stanzas of a generated script at most.
const MAX_STANZAS: u32 = 100_000;

/// What the program is asked to do.
#[derive(Clone, Copy, Debug, PartialEq, Eq)]
pub enum Task {
    /// The script that the source has is run, and its report written.
    Run,
    /// The script that a seed generates, with so many stanzas, is run, and its summary written.
    Gen(u64, u32),
}

/// The script that a seed and a number of stanzas generate.
fn generation_of(seed: &str, count: &str) -> Option<Task>
    ensures task { result ≡ generation_of seed.now count.now }
    ensures few { IfSome result HasFewStanzas }
{
    let seed = number_u64(seed)?;
    let count = number_u32(count)?;
    (count <= MAX_STANZAS).then_some(Task::Gen(seed, count))
}

/// What the words ask for: `run`, or `gen` with a seed and a number of stanzas; other words ask for nothing.
pub fn task_of(words: &[String]) -> Option<Task>
    ensures task { result ≡ task_of (map string_bytes words.now) }
    ensures few { IfSome result HasFewStanzas }
{
    match words {
        [word] if word.as_str() == "run" => Some(Task::Run),
        [word, seed, count] if word.as_str() == "gen" => {
            generation_of(seed.as_str(), count.as_str())
        }
        _ => None,
    }
}
