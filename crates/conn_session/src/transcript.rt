//! A whole session: its commands run, and its servers given back.
ghost use Rattle.std.specs.Prelude.{◌≡◌, [], IfOk, IsSome, Some};
ghost use Rattle.conn_script.specs.Grammar.{script_of};
ghost use Rattle.conn_drivers.specs.Establishing.{AreAt};
ghost use Rattle.conn_server.specs.Connected.{writes_by, count_writes, write_at};
ghost use Rattle.conn_session.specs.Accounts.{AllBack, servers_of};
ghost use Rattle.conn_session.specs.Commands.{IsParsed, RunsScript, Transcribes, Sessions};

use crate::queries::Queries;
use crate::session::Session;
use conn_drivers::{AnyConnection, MultiConnection};
use conn_manager::{Connection, NoInstrumentation};
use conn_pool::ConnectionManager;
use conn_report::{Entry, Servers, Texts, Transcript};
use conn_script::{Script, SessionError, parse_script};
use conn_server::Connector;
use sqlite_items::Items;
use std::alloc::{AllocError, Global};

/// One committed write of a server.
fn write_of<K: Connector>(connector: &K, server: u32, place: u64) -> &str
    requires { IsSome (write_at K.S.is_honest server place (K.held connector.now).returned) }
    ensures { write_at K.S.is_honest server place (K.held connector.now).returned
        ≡ Some result.now }
{
    match connector.write(server, place) {
        Some(text) => text,
        None => unreachable!(),
    }
}

/// Copies of the committed writes of a server, of which there are so many.
fn copy_writes<K: Connector>(
    alloc: Global,
    connector: &K,
    server: u32,
    count: u64,
) -> Result<Texts, AllocError>
    requires { count_writes K.S.is_honest server (K.held connector.now).returned ≡ Some count }
    ensures { IfOk result (λ texts.
        writes_by K.S.is_honest server (K.held connector.now).returned ≡ Some texts) }
{
    let mut texts = Texts::new(alloc);
    for place in 0..count {
        texts.push(write_of(connector, server, place))?;
    }
    Ok(texts)
}

/// Copies the committed writes of every server, by number, where they are told.
fn all_writes<K: Connector>(alloc: Global, connector: &K) -> Result<Servers, AllocError>
    ensures { let k = K.held connector.now in
        IfOk result (λ servers. servers ≡ servers_of K.S.is_honest k.opened k.returned) }
{
    let mut servers = Items::new(alloc);
    for server in 0..connector.opened() {
        let writes = match connector.writes(server) {
            None => None,
            Some(count) => Some(copy_writes(alloc, connector, server, count)?),
        };
        servers.push(writes)?;
    }
    Ok(servers)
}

/// Runs the commands over new servers, all of which are given back.
fn run_commands<
    C: MultiConnection + Connection<Handler = NoInstrumentation> + Drop,
    K: Connector<S = C::S>,
>(alloc: Global, script: &Script, connector: &mut K) -> Result<Vec<Entry>, AllocError>
    requires none_opened { (K.held connector.old).opened ≡ 0 }
    requires none_returned { (K.held connector.old).returned ≡ [] }
    ensures runs { IfOk result (λ entries. RunsScript K.is_honest script.now
        (K.held connector.old) (K.held connector.new) entries.items) }
    ensures aims { AreAt script.now.dialect script.now.url (K.held connector.old).targets
        → AreAt script.now.dialect script.now.url (K.held connector.new).targets }
    ensures back { AllBack (K.held connector.new) }
    ensures armed { (K.held connector.new).armed ≡ (K.held connector.old).armed }
{
    let url = script.url.copy(alloc)?;
    let queries = Queries::new(alloc, script.queries.as_slice())?;
    let mut session: Session<C> = Session::new(
        alloc,
        script.max_size,
        script.customizer,
        script.check,
        queries,
    )?;
    let mut manager = ConnectionManager::<C, K>::new(connector, script.dialect, url);
    let entries = session.run_all(script.commands.as_slice(), &mut manager);
    drop(manager);
    session.close(connector);
    entries
}

/// Runs a script over new servers, which are armed with its plan and all given back.
fn run_script<K: Connector>(
    alloc: Global,
    script: &Script,
    connector: &mut K,
) -> Result<Transcript, AllocError>
    requires none_opened { (K.held connector.old).opened ≡ 0 }
    requires none_returned { (K.held connector.old).returned ≡ [] }
    requires parsed { IsParsed script.now }
    ensures transcribes { IfOk result (Transcribes K.is_honest K.S.is_honest script.now
        (K.held connector.old) (K.held connector.new)) }
    ensures back { AllBack (K.held connector.new) }
{
    connector.arm(alloc, script.plan.as_slice())?;
    let entries = run_commands::<AnyConnection<K::S, NoInstrumentation>, K>(
        alloc, script, connector,
    )?;
    let servers = all_writes(alloc, connector)?;
    Ok(Transcript {
        entries: Items::from_vec(entries),
        servers,
    })
}

/// Runs the script that the bytes stand for. Bytes that stand for none run nothing, and their bad line is told: the first with
/// which the lines can't go on to a script. Whatever the answer, each server that was opened is back with the connector, once. Over an honest
/// connector the entries are those that the finished logs of its servers answer to the commands.
#[tactic(auto, using(crate::proofs::Borne::is_parsed))]
pub fn run_session<K: Connector>(
    alloc: Global,
    script: &[u8],
    connector: &mut K,
) -> Result<Transcript, SessionError>
    requires none_opened { (K.held connector.old).opened ≡ 0 }
    requires none_returned { (K.held connector.old).returned ≡ [] }
    ensures session { Sessions K.is_honest K.S.is_honest (script_of script.now)
        (K.held connector.old) (K.held connector.new) result }
    ensures back { AllBack (K.held connector.new) }
{
    match parse_script(alloc, script) {
        Ok(script) => match run_script(alloc, &script, connector) {
            Ok(transcript) => Ok(transcript),
            Err(_) => Err(SessionError::OutOfMemory),
        },
        Err(e) => Err(e),
    }
}
