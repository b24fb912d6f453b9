//! The blocks of a session that are open.
ghost use Rattle.std.specs.Prelude.{◌≡◌, ◌∷◌, [], IfOk, OnErr};
ghost use Rattle.conn_reading.specs.Blocks.{block_on, blocks_after, blocks_told, closing, deed_in, deed_of, if_live, opening, opening_state, plain_deed, with_refusal, without_block};

use crate::Deed;
use conn_model::LentText;
use conn_report::Reply;
use conn_result::{Error, QueryResult};
use conn_script::{BlockKind, Verb};
use std::alloc::{AllocError, Global};
use std::marker::Model;

/// How an open block stands.
#[derive(Clone, Copy, Debug)]
pub enum BlockState {
    /// Its commands are run.
    Live,
    /// A command in it was refused so: a closure would have left by its `?`, so the commands behind it are skipped.
    Refused(Error),
    /// It was never opened, so all of its commands are skipped.
    Dead,
}

/// An open block.
#[derive(Clone, Copy, Debug)]
pub struct Block {
    pub connection: u32,
    pub kind: BlockKind,
    pub state: BlockState,
}

/// The open blocks, seen as a list, innermost first.
#[derive(Drop)]
pub struct Blocks {
    open: Vec<Block>,
}

impl Model for Blocks {
    ghost use Rattle.std.specs.Prelude.{List, reverse};
    ghost use Rattle.conn_reading.specs.declared.blocks.Block.{Block};

    ghost Value = { List Block };

    ghost view = { λ b. reverse b.open.items };
}

/// How a block begins.
fn opening<'a>(kind: BlockKind) -> Deed<'a>
    ensures { result ≡ opening kind }
{
    match kind {
        BlockKind::Plain | BlockKind::Test => Deed::Begin,
        BlockKind::Form(form) => Deed::BeginBy(form),
    }
}

/// What a command does outside of a block, or in one that is live.
fn plain_deed<'a>(verb: &Verb<'a>) -> Option<Deed<'a>>
    ensures { result ≡ plain_deed verb.now }
{
    match verb {
        Verb::Batch(text) => Some(Deed::Batch(LentText::new(text.as_str()))),
        Verb::Begin => Some(Deed::Begin),
        Verb::Commit => Some(Deed::Commit),
        Verb::Rollback => Some(Deed::Rollback),
        Verb::TestBegin => Some(Deed::TestBegin),
        Verb::Query(call, query) => Some(Deed::Query(*call, *query)),
        Verb::Cache(size) => Some(Deed::CacheSize(*size)),
        Verb::Ping => Some(Deed::Ping),
        Verb::Block(kind) => Some(opening(*kind)),
        Verb::End | Verb::Fail => None,
    }
}

/// A block closes with this answer, or with the error that a command in it got.
fn closing<'a>(kind: BlockKind, state: BlockState, answer: QueryResult<()>) -> Option<Deed<'a>>
    ensures { result ≡ closing kind state answer }
{
    match state {
        BlockState::Live => Some(Deed::Close(kind, answer)),
        BlockState::Refused(e) => Some(Deed::Close(kind, Err(e))),
        BlockState::Dead => None,
    }
}

/// What a command does in a block.
fn deed_in<'a>(block: Block, verb: &Verb<'a>) -> Option<Deed<'a>>
    ensures { result ≡ deed_in block verb.now }
{
    match (verb, block.state) {
        (Verb::End, state) => closing(block.kind, state, Ok(())),
        (Verb::Fail, state) => closing(block.kind, state, Err(Error::RollbackTransaction)),
        (verb, BlockState::Live) => plain_deed(verb),
        _ => None,
    }
}

/// How a block stands whose opening had this reply.
fn opening_state(reply: &Reply) -> BlockState
    ensures { result ≡ opening_state reply.now }
{
    match reply {
        Reply::Ok => BlockState::Live,
        _ => BlockState::Dead,
    }
}

impl Blocks {
    /// No block is open.
    pub fn new(alloc: Global) -> Blocks
        ensures { result ≡ [] }
    {
        Blocks {
            open: Vec::new(alloc),
        }
    }

    /// The innermost block, where it is one of the connection.
    fn on(&self, connection: u32) -> Option<Block>
        ensures { result ≡ block_on connection self.now }
    {
        match self.open.last() {
            Some(block) if block.connection == connection => Some(*block),
            _ => None,
        }
    }

    /// What a command of the connection does; `None` where it is skipped.
    pub fn deed<'a>(&self, connection: u32, verb: &Verb<'a>) -> Option<Deed<'a>>
        ensures { result ≡ deed_of (block_on connection self.now) verb.now }
    {
        match self.on(connection) {
            None => plain_deed(verb),
            Some(block) => deed_in(block, verb),
        }
    }

    /// One block more.
    fn push(&mut self, block: Block) -> Result<(), AllocError>
        ensures pushed { IfOk result (λ _. self.new ≡ block ∷ self.old) }
        ensures kept { OnErr result (self.new ≡ self.old) }
    {
        self.open.push(block)?;
        Ok(())
    }

    /// The innermost block is refused, where it is one of the connection.
    fn refuse(&mut self, connection: u32, error: Error)
        ensures { self.new ≡ with_refusal connection error self.old }
    {
        if let Some(block) = self.on(connection) {
            let state = BlockState::Refused(error);
            let _ = self.open.pop();
            let _ = self.open.push(Block { state, ..block });
        }
    }

    /// The innermost block is closed, where it is one of the connection.
    fn close(&mut self, connection: u32)
        ensures { self.new ≡ without_block connection self.old }
    {
        if self.on(connection).is_some() {
            let _ = self.open.pop();
        }
    }

    /// What the reply to a command of the connection makes of the blocks. Want of memory leaves them.
    pub fn follow(
        &mut self,
        connection: u32,
        verb: &Verb<'_>,
        reply: &Reply,
    ) -> Result<(), AllocError>
        ensures after { IfOk result (λ _. self.new
            ≡ blocks_after connection verb.now reply.now self.old) }
        ensures kept { OnErr result (self.new ≡ self.old) }
    {
        match (verb, reply) {
            (Verb::Block(kind), reply) => {
                return self.push(Block {
                    connection,
                    kind: *kind,
                    state: opening_state(reply),
                });
            }
            (Verb::End | Verb::Fail, _) => self.close(connection),
            (_, Reply::Error(e)) => self.refuse(connection, *e),
            _ => {}
        }
        Ok(())
    }
}
