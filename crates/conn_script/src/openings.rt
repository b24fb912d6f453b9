//! Which commands may come behind others: the open blocks, and the commands that ask for rows.
ghost use Rattle.std.specs.Prelude.{◌≡◌, true};
ghost use Rattle.conn_script.specs.Drafts.{can_end};
ghost use Rattle.conn_script.specs.Openings.{blocks_behind, bounds_block, closes_block, fits_dialect, inside_behind, loads_behind, loads_rows, may_load, may_stand, may_stand_inside};
ghost use Rattle.conn_script.specs.Requests.{request_of};

use crate::request::{Request, Verb};
use crate::{Act, BlockKind, QueryCall};
use conn_model::Dialect;

/// The commands that a script has at most.
const MAX_COMMANDS: usize = 1_048_576;

/// The blocks that are open at most.
const MAX_BLOCKS: u32 = 64;

/// The commands of a script that ask for rows at most.
const MAX_LOADS: u32 = 65_536;

/// Whether the command closes a block.
fn closes_block(act: &Act) -> bool
    ensures { result ≡ closes_block (request_of act.now) }
{
    matches!(act, Act::End(_) | Act::Fail(_))
}

/// Whether the command opens or closes a block.
pub fn bounds_block(act: &Act) -> bool
    ensures { result ≡ bounds_block (request_of act.now) }
{
    matches!(act, Act::Block(..) | Act::End(_) | Act::Fail(_))
}

/// Whether the command may come inside of this many blocks, all on this connection.
fn may_stand_inside(blocks: u32, inside: u32, act: &Act) -> bool
    ensures { result ≡ may_stand_inside blocks inside (request_of act.now) }
{
    match act.request() {
        Request::On(c, Verb::Block(_)) => c == inside && blocks < MAX_BLOCKS,
        Request::On(
            c,
            Verb::Batch(_) | Verb::Query(..) | Verb::Cache(_) | Verb::Ping | Verb::End | Verb::Fail,
        ) => c == inside,
        _ => false,
    }
}

/// Whether the command may come where this many blocks are open, all on this connection.
pub fn may_stand(blocks: u32, inside: u32, act: &Act) -> bool
    ensures { result ≡ may_stand blocks inside (request_of act.now) }
{
    if blocks == 0 {
        return !closes_block(act);
    }
    may_stand_inside(blocks, inside, act)
}

/// How many blocks are open behind the command, and the connection that they name.
pub fn open_behind(blocks: u32, inside: u32, act: &Act) -> (u32, u32)
    requires { may_stand blocks inside (request_of act.now) ≡ true }
    ensures { result
        ≡ (blocks_behind blocks (request_of act.now), inside_behind inside (request_of act.now)) }
{
    if let Act::Block(c, _) = act {
        return (blocks + 1, *c);
    }
    if closes_block(act) {
        return (blocks - 1, inside);
    }
    (blocks, inside)
}

/// Whether the lines that close this many blocks on this connection can still come behind this
/// many commands.
pub fn can_end(commands: usize, blocks: u32, inside: u32) -> bool
    ensures { result ≡ can_end commands blocks inside }
{
    commands.saturating_add(blocks as usize) <= MAX_COMMANDS
}

/// Whether the command asks for rows.
fn loads_rows(act: &Act) -> bool
    ensures { result ≡ loads_rows (request_of act.now) }
{
    match act {
        Act::Query(QueryCall::Exec, _, _) => false,
        Act::Query(..) => true,
        _ => false,
    }
}

/// Whether the command may come behind so many that ask for rows.
pub fn may_load(loads: u32, act: &Act) -> bool
    ensures { result ≡ may_load loads (request_of act.now) }
{
    !loads_rows(act) || loads < MAX_LOADS
}

/// How many commands ask for rows with this one.
pub fn loads_behind(loads: u32, act: &Act) -> u32
    requires { may_load loads (request_of act.now) ≡ true }
    ensures { result ≡ loads_behind loads (request_of act.now) }
{
    if loads_rows(act) { loads + 1 } else { loads }
}

/// Whether servers of the dialect can be asked it.
pub fn fits_dialect(dialect: Dialect, act: &Act) -> bool
    ensures { result ≡ fits_dialect dialect (request_of act.now) }
{
    match act {
        Act::Query(QueryCall::Each, _, _) => dialect == Dialect::Pg,
        Act::Block(_, BlockKind::Form(form)) => dialect == form.dialect(),
        _ => true,
    }
}
