// Origin: dag/commit/back.rs (anchor_chain, chained_proof, ready_valid_point), dag/commit/mod.rs (EnqueuedAnchor).
// One round of the walk from a trigger down to its anchors.
#![tactic(auto)]

ghost use Rattle.std.specs.Prelude.{◌≡◌, ◌+◌, ◌*◌, ◌<◌};
ghost use Rattle.models.specs.Tables.{Used};
ghost use Rattle.back_walk.specs.Model.{judge_of, needed, proof_at, anchor_at, used_at, step_at, Walkable, Linked};

use commit_state::dag::Dag;
use dag_round_keys::look::{Look, look_up};
use models::cert::Cert;
use models::dag_point::DagPoint;
use models::parts::{PointId, Round};
use models::place::{has_previous, marks_at, previous, top_proof};
use models::refusal::{BROKEN_CHAIN, NEVER_NAMED, POINT_MISSING, Refusal, not_valid};
use models::tables::ROUND_SLOTS;

// An anchor of the chain: its place, its proof's, and the round of the anchor's top proof (`EnqueuedAnchor`). A place is below 4,096, and
// the chain is an array by value: so 16 bits.
#[derive(Clone, Copy)]
pub struct EnqueuedAnchor {
    pub anchor: u16,
    pub proof: u16,
    pub prev_proof_round: Round,
}

// A round of the walk is passed, ends it, or has an anchor's proof.
#[derive(Clone, Copy)]
pub enum Step {
    Pass,
    End,
    Anchor(EnqueuedAnchor),
}

// What a resolved point of this round is refused with in the walk, which needs a valid one: 13 or 15.
fn judge(cert: Cert, point: DagPoint, round: Round) -> Result<(), Refusal>
    ensures { result ≡ judge_of point cert.0 round.0 }
{
    match point {
        DagPoint::Valid => Ok(()),
        DagPoint::TransInvalid => not_valid(cert, round),
        DagPoint::Invalid => not_valid(cert, round),
        DagPoint::IllFormed => not_valid(cert, round),
        DagPoint::NotFound => not_valid(cert, round),
    }
}

// The point with this id, as the walk needs it (`ready_valid_point`): 14 if it is named only, 25 if it was never named.
fn ready_valid_point(dag: &Dag, id: PointId) -> Result<usize, Refusal>
    requires { Walkable dag.now.state.now dag.now.keys.now dag.now.certs.now dag.now.order.now }
    ensures { result ≡ needed dag.now.state.now dag.now.keys.now dag.now.certs.now dag.now.order.now id }
{
    let words = dag_round_points::id_words(id);
    let look = look_up(dag.keys, dag.order, dag.state.count, &words);
    match look {
        Look::Never => Err(Refusal::Number(NEVER_NAMED)),
        Look::Named(_) => Err(Refusal::Number(POINT_MISSING)),
        Look::Resolved(q, point) => {
            judge(Cert(dag.certs[q]), point, id.round)?;
            Ok(q)
        }
    }
}

// The proof with this id: a point that the walk needs, marked as proof, with a previous point (`chained_proof`).
fn chained_proof(dag: &Dag, id: PointId) -> Result<usize, Refusal>
    requires walkable { Walkable dag.now.state.now dag.now.keys.now dag.now.certs.now dag.now.order.now }
    requires linked { Linked dag.now.state.now dag.now.keys.now dag.now.links.now dag.now.order.now }
    ensures { result ≡ proof_at dag.now.state.now dag.now.keys.now dag.now.links.now dag.now.certs.now dag.now.order.now id }
{
    let p = ready_valid_point(dag, id)?;
    if marks_at(dag.keys, p) % 2 == 0 {
        return Err(Refusal::Number(BROKEN_CHAIN));
    }
    if !has_previous(dag.keys, dag.links, p) {
        return Err(Refusal::Number(BROKEN_CHAIN));
    }
    Ok(p)
}

// The anchor of the proof at place p, in this round.
fn anchor_at(dag: &Dag, p: usize, round: Round) -> Result<Step, Refusal>
    requires walkable { Walkable dag.now.state.now dag.now.keys.now dag.now.certs.now dag.now.order.now }
    requires linked { Linked dag.now.state.now dag.now.keys.now dag.now.links.now dag.now.order.now }
    requires used { Used dag.now.order.now dag.now.state.now.count p }
    ensures { result ≡ anchor_at dag.now.state.now dag.now.keys.now dag.now.links.now dag.now.certs.now dag.now.order.now p round.0 }
{
    let id = previous(dag.keys, dag.links, p, round);
    let q = ready_valid_point(dag, id)?;
    let top = top_proof(dag.links, q);
    Ok(Step::Anchor(EnqueuedAnchor {
        anchor: q as u16,
        proof: p as u16,
        prev_proof_round: top.round,
    }))
}

// A round of the walk in which the author's proof is used: it ends the walk if it is the sought author's.
fn at_used(used: u32, author: u32) -> Result<Step, Refusal>
    ensures { result ≡ used_at used author }
{
    if used == author {
        return Ok(Step::End);
    }
    Err(Refusal::Number(BROKEN_CHAIN))
}

// The round x of the walk, which ends at the round low; id is the sought proof's.
pub fn visit(dag: &Dag, id: PointId, low: Round, x: Round) -> Result<Step, Refusal>
    requires walkable { Walkable dag.now.state.now dag.now.keys.now dag.now.certs.now dag.now.order.now }
    requires linked { Linked dag.now.state.now dag.now.keys.now dag.now.links.now dag.now.order.now }
    ensures { result ≡ step_at dag.now.state.now dag.now.keys.now dag.now.links.now dag.now.certs.now dag.now.order.now low.0 x.0 id }
{
    let round = id.round;
    if round.0 < x.0 {
        return Ok(Step::Pass);
    }
    if x.0 < round.0 {
        return Err(Refusal::Number(BROKEN_CHAIN));
    }
    let record = dag.state.rounds[(x.0 % ROUND_SLOTS) as usize];
    let used = record.used_anchor_proof;
    if used != 0 {
        return at_used(used - 1, id.author);
    }
    let p = chained_proof(dag, id)?;
    if x.0 <= low.0 {
        return Ok(Step::End);
    }
    anchor_at(dag, p, x.prev())
}
