//! The call behind the program: from the words and the bytes of a script to a status and the bytes of its report.
ghost use Rattle.std.specs.Prelude.{◌≡◌, ◌≢◌, ◌≤◌, [], ℕ, List, None, Some, map, string_bytes, IfOk, IfSome, ◌↔◌};
ghost use Rattle.conn_result.specs.Causes.{Rose};
ghost use Rattle.std.specs.Io.KnownBytes.{Appends};
ghost use Rattle.conn_io.specs.Bytes.{AppendsPrefix, CountsRead};
ghost use Rattle.conn_script.specs.Grammar.{script_of};
ghost use Rattle.conn_session.specs.Accounts.{AllBack};
ghost use Rattle.conn_session.specs.Commands.{Answers, AnswersTask, IsCompleteTask, IsUnread, bad_line, task_bytes, task_text};
ghost use Rattle.conn_session.specs.Tasks.{HasFewStanzas, task_of};
ghost use Rattle.conn_session.specs.declared.task.Task.{Task as task_type};

use crate::task::{Task, task_of};
use crate::transcript::run_session;
use conn_io::{Failed, ReadError, Sink, Source, read_all, write_all};
use conn_report::{Transcript, render, summarize};
use conn_script::SessionError;
use conn_server::Connector;
use script_generator::generate;
use std::alloc::{AllocError, Global};
use std::fmt::Write;

/// One byte more than a script may have.
const MOST: usize = 16_777_217;

/// The line that says which line of a script is bad.
fn bad_text(alloc: Global, line: u32) -> Result<Vec<u8>, AllocError>
    ensures { IfOk result (λ bytes. bytes.items ≡ bad_line line) }
{
    let text = format!(in alloc; "bad line {line}\n")?;
    Ok(text.into_bytes())
}

/// What a task writes of a session.
fn task_text(alloc: Global, task: Task, transcript: &Transcript) -> Result<Vec<u8>, AllocError>
    ensures { IfOk result (λ bytes. bytes.items ≡ task_text task transcript.now) }
{
    match task {
        Task::Run => render(alloc, transcript),
        Task::Gen(..) => summarize(alloc, transcript),
    }
}

/// The bytes of the script that a task is about. The source is read by `run` alone.
fn task_bytes<I: Source>(alloc: Global, task: Task, source: &mut I) -> Result<Vec<u8>, ReadError>
    requires { HasFewStanzas task }
    ensures script { IfOk result (λ bytes. IfSome (task_bytes task (I.left source.old))
        (λ told. script_of bytes.items ≡ script_of told)) }
    ensures unread { IsUnread task (I.left source.old) (I.left source.new) }
    ensures later { I.faults source.old ≤ I.faults source.new }
    ensures counts { CountsRead (I.faults source.old) (I.faults source.new) result }
{
    match task {
        Task::Run => read_all(alloc, source, MOST),
        Task::Gen(seed, count) => match generate(alloc, seed, count) {
            Ok(bytes) => Ok(bytes),
            Err(_) => Err(ReadError::OutOfMemory),
        },
    }
}

/// The status and the text for the bytes of a script.
fn answer<K: Connector>(
    alloc: Global,
    task: Task,
    bytes: &[u8],
    connector: &mut K,
) -> Result<(u8, Vec<u8>), AllocError>
    requires none_opened { (K.held connector.old).opened ≡ 0 }
    requires none_returned { (K.held connector.old).returned ≡ [] }
    ensures answer { IfOk result (λ r. Answers K.is_honest K.S.is_honest task (script_of bytes.now)
        (K.held connector.old) (K.held connector.new) r.0 r.1.items) }
    ensures back { AllBack (K.held connector.new) }
{
    match run_session(alloc, bytes, connector) {
        Ok(transcript) => Ok((0, task_text(alloc, task, &transcript)?)),
        Err(SessionError::BadScript { line }) => Ok((1, bad_text(alloc, line)?)),
        Err(SessionError::OutOfMemory) => Err(AllocError),
    }
}

/// Runs a script, and writes what came of it to the sink: for the words `run` the script that the source has, of which the
/// report is written; for `gen SEED COUNT` the script that the seed generates with so many stanzas, at most 100,000, of which
/// the summary is written.
///
/// The status is 0 where that was written whole; 1 where the source's bytes are no script, after the line `bad line N`, with
/// nothing run; 2 where the source failed and 3 where the sink did; 4 for want of memory; and 5 for other words.
pub fn run_command<I: Source, O: Sink, K: Connector>(
    alloc: Global,
    words: &[String],
    source: &mut I,
    sink: &mut O,
    connector: &mut K,
) -> u8
    requires none_opened { (K.held connector.old).opened ≡ 0 }
    requires none_returned { (K.held connector.old).returned ≡ [] }

    // 0 and 1: what the source had is answered, and the answer is written whole.
    ensures answered { result ≤ 1 → (task : task_type)
        × (task_of (map string_bytes words.now) ≡ Some task) × ((text : List ℕ)
        × AnswersTask K.is_honest K.S.is_honest task (I.left source.old)
        (K.held connector.old) (K.held connector.new) result text
        × Appends (O.held sink.old) (O.held sink.new) text) }

    // 2: the source failed, nothing is run and nothing written.
    ensures unread { result ≡ 2 → Rose (I.faults source.old) (I.faults source.new) }
    ensures unread_same { result ≡ 2 → (O.held sink.new ≡ O.held sink.old)
        × (K.held connector.new ≡ K.held connector.old) }

    // 3: the sink failed, and got less than the whole answer.
    ensures unwritten { result ≡ 3 → Rose (O.faults sink.old) (O.faults sink.new) }
    ensures prefix { result ≡ 3 → (task : task_type)
        × (task_of (map string_bytes words.now) ≡ Some task) × (status : ℕ) × (text : List ℕ)
        × AnswersTask K.is_honest K.S.is_honest task (I.left source.old)
        (K.held connector.old) (K.held connector.new) status text
        × AppendsPrefix (O.held sink.old) (O.held sink.new) text }

    // 4: memory was wanting before anything was written.
    ensures unreported { result ≡ 4 → O.held sink.new ≡ O.held sink.old }

    // 5: exactly for other words, and then nothing is done.
    ensures words { (result ≡ 5) ↔ (task_of (map string_bytes words.now) ≡ None) }
    ensures untouched { result ≡ 5 → (I.left source.new ≡ I.left source.old)
        × (O.held sink.new ≡ O.held sink.old) × (K.held connector.new ≡ K.held connector.old) }
    ensures range { result ≤ 5 }

    // A count of faults rises with its own status alone.
    ensures read { result ≢ 2 → I.faults source.new ≡ I.faults source.old }
    ensures written { result ≢ 3 → O.faults sink.new ≡ O.faults sink.old }

    // Where neither the source nor the sink failed, a script is answered 0 and other bytes 1, but for want of memory.
    ensures complete { (task : task_type) → task_of (map string_bytes words.now) ≡ Some task
        → ¬ (Rose (I.faults source.old) (I.faults source.new))
        → ¬ (Rose (O.faults sink.old) (O.faults sink.new))
        → IsCompleteTask task (I.left source.old) result }

    // A script that is generated isn't read.
    ensures generated { (task : task_type) → task_of (map string_bytes words.now) ≡ Some task
        → IsUnread task (I.left source.old) (I.left source.new) }

    // Each server that was opened is back, once.
    ensures back { AllBack (K.held connector.new) }
{
    let Some(task) = task_of(words) else {
        return 5;
    };
    let bytes = match task_bytes(alloc, task, source) {
        Ok(bytes) => bytes,
        Err(ReadError::Failed) => return 2,
        Err(ReadError::OutOfMemory) => return 4,
    };
    let Ok((status, text)) = answer(alloc, task, &bytes, connector) else {
        return 4;
    };
    match write_all(sink, &text) {
        Ok(()) => status,
        Err(Failed) => 3,
    }
}
