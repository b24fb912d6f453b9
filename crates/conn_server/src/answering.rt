//! What a server in memory answers to a call, and does by it.
ghost use Rattle.std.specs.Prelude.{◌≡◌, ℕ, ◌≤◌, ◌+◌, true, false, Some, None, is_some, if◌then◌else◌};
ghost use Rattle.conn_model.specs.Kinds.{has_kind};
ghost use Rattle.conn_server.specs.Answering.{accepts_demand, commits_demand, step_demand, refused_by, answer_by, failures_after, reply_by};
ghost use Rattle.conn_server.specs.Moves.{phase_of};
ghost use Rattle.conn_server.specs.Refusals.{order_in};

use crate::refusal::{effect_of, order_in, ordered, unaccepted};
use crate::standing::Standing;
use conn_model::{Answer, Class, Dialect, Order, Refusal, Wish};

/// What a call asks of a transaction: that a text may be prepared in it, what a text of the class asks, or a row, of which
/// only a refusal is a call.
#[derive(Clone, Copy)]
pub enum Demand {
    Prepare,
    Run(Class),
    Fetch,
}

fn commits(demand: Demand) -> bool
    ensures { result ≡ commits_demand demand }
{
    matches!(demand, Demand::Run(Class::Commit))
}

/// Does what an accepted call does, and answers whether it is accepted. A write stands at the place in the log.
fn accept(standing: &mut Standing, dialect: Dialect, demand: Demand, place: u64) -> bool
    requires { 1 ≤ standing.old.room }
    ensures state { (if result then Some standing.new.state else None)
        ≡ accepts_demand dialect standing.old.state place demand }
    ensures none { result ≡ false → standing.new ≡ standing.old }
    ensures room { standing.old.room ≤ standing.new.room + 1 }
{
    match demand {
        Demand::Prepare => standing.is_ready(),
        Demand::Run(class) => standing.accept(dialect, class, place),
        Demand::Fetch => false,
    }
}

/// Does what a refused call does, with the effect that the wish has.
pub fn refuse(
    standing: &mut Standing,
    dialect: Dialect,
    demand: Demand,
    refusal: Refusal,
    wish: Wish,
) -> Answer
    requires { has_kind dialect refusal ≡ true }
    ensures answer { result ≡ refused_by dialect (phase_of standing.old.state)
        (commits_demand demand) refusal wish }
    ensures state { (n : ℕ) → step_demand dialect standing.old.state n demand result
        ≡ Some standing.new.state }
    ensures room { standing.old.room ≤ standing.new.room }
{
    let commits = commits(demand);
    let effect = effect_of(dialect, standing.phase(), commits, refusal.kind, wish);
    standing.refuse(effect);
    Answer::Refused(refusal, effect)
}

/// Answers the call and does what it does: what is ordered comes first, then what the state accepts. Where it is called it is
/// known what kind of call it is, so most of it falls away there.
#[inline(always)]
#[tactic(auto, using(crate::proofs::Kinded::ordered_kind, crate::proofs::Kinded::unaccepted_kind))]
pub fn answer(
    standing: &mut Standing,
    dialect: Dialect,
    order: Option<Order>,
    demand: Demand,
    place: u64,
) -> Answer
    requires { 1 ≤ standing.old.room }
    ensures answer { result ≡ answer_by dialect (phase_of standing.old.state)
        (is_some (accepts_demand dialect standing.old.state place demand)) (commits_demand demand)
        (order_in (phase_of standing.old.state) order) }
    ensures state { step_demand dialect standing.old.state place demand result
        ≡ Some standing.new.state }
    ensures room { standing.old.room ≤ standing.new.room + 1 }
{
    let phase = standing.phase();
    if let Some(order) = order_in(phase, order) {
        return refuse(
            standing,
            dialect,
            demand,
            ordered(dialect, order),
            order.wish,
        );
    }
    if accept(standing, dialect, demand, place) {
        return Answer::Accepted;
    }
    refuse(
        standing,
        dialect,
        demand,
        unaccepted(dialect, phase),
        Wish::Stay,
    )
}

/// The count of refusals after the answer.
pub fn failures_after(failures: u64, answer: Answer) -> u64
    ensures counts { result ≡ failures_after failures answer }
    ensures rises { failures ≤ result }
{
    match answer {
        Answer::Accepted => failures,
        Answer::Refused(_, _) => failures.saturating_add(1),
    }
}

/// What the caller hears: the value, or the refusal.
pub fn reply_by<T: Copy>(value: T, answer: Answer) -> Result<T, Refusal>
    ensures { result ≡ reply_by value answer }
{
    match answer {
        Answer::Accepted => Ok(value),
        Answer::Refused(refusal, _) => Err(refusal),
    }
}
