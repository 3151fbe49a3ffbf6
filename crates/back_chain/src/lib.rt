// Origin: dag/commit/back.rs (anchor_chain), dag/commit/mod.rs (commit up to the chain, filter, EnqueuedAnchor).
// The tests of a trigger, and the chain of anchors that it yields.
#![tactic(auto)]

ghost use Rattle.std.specs.Prelude.{◌≡◌, ◌+◌, ◌*◌, ◌-◌, ◌<◌, ◌≤◌, [], true, length, Ok, IfOk};
ghost use Rattle.spec.specs.Rules.{counts_as_started};
ghost use Rattle.spec.specs.Chain.{then, check_oldest, anchors_of};
ghost use Rattle.models.specs.Parts.{id_of};
ghost use Rattle.models.specs.Tables.{Used};
ghost use Rattle.tables_test.specs.View.{view_of};
ghost use Rattle.back_walk.specs.Model.{Walkable, Linked};
ghost use Rattle.back_chain.specs.Chain.{no_anchors, chain_out};
ghost use Rattle.back_chain.specs.RefinesWalk.{walked};
ghost use Rattle.back_chain.specs.Model.{low_of, trigger_code, valid_of, walks, chained_from, is_below};

use back_walk::{EnqueuedAnchor, Step, visit};
use commit_state::dag::Dag;
use commit_state::state::State;
use dag_round_keys::look::{Look, look_place};
use dag_round_points::find_named;
use models::cert::Cert;
use models::dag_point::DagPoint;
use models::parts::{PointId, Round};
use models::place::{has_previous, marks_at, previous, top_proof};
use models::refusal::{BROKEN_CHAIN, CHAIN_ENDS_EARLY, NOT_NAMED, Refusal, UNUSABLE, not_valid};
use models::tables::{PEER_SLOTS, ROUNDS_MAX};

// The anchors, newest first.
#[derive(Clone, Copy)]
pub struct Chain {
    pub count: usize,
    pub list: [EnqueuedAnchor; ROUNDS_MAX],
}

// No anchors.
fn no_anchors() -> Chain
    ensures { result ≡ no_anchors }
{
    let empty = EnqueuedAnchor {
        anchor: 0,
        proof: 0,
        prev_proof_round: Round(0),
    };
    Chain {
        count: 0,
        list: [empty; ROUNDS_MAX],
    }
}

// The walk over the `span` rounds from low on, downwards; id is the sought proof's.
fn anchor_chain(dag: &Dag, low: Round, span: u32, id: PointId) -> Result<Chain, Refusal>
    requires walkable { Walkable dag.now.state.now dag.now.keys.now dag.now.certs.now dag.now.order.now }
    requires linked { Linked dag.now.state.now dag.now.keys.now dag.now.links.now dag.now.order.now }
    requires span_bound { (span ≤ 511) × (low.0 + span < 4294967296) }
    ensures result_value { chain_out result ≡ walked dag.now.state.now dag.now.keys.now dag.now.links.now dag.now.certs.now dag.now.order.now low.0 span id [] }
    ensures count_bound { IfOk result (λ c. c.count ≤ 511) }
{
    let empty = no_anchors();
    let mut list = empty.list;
    let mut count: usize = 0;
    let mut sought = id;
    for k in (0..span).rev() {
        let x = low.plus(k);
        match visit(dag, sought, low, x)? {
            Step::Pass => {}
            Step::End => {
                return Ok(Chain { count, list });
            }
            Step::Anchor(e) => {
                let q = e.anchor as usize;
                list[count] = e;
                count += 1;
                sought = top_proof(dag.links, q);
            }
        }
    }
    Ok(Chain { count, list })
}

// 19, at the walk's end: the oldest anchor's top proof is above the lowest round.
fn check_oldest(c: Chain, low: Round) -> Result<Chain, Refusal>
    requires { c.count ≤ 511 }
    ensures result_value { chain_out result ≡ then (chain_out (Ok c)) (check_oldest low.0) }
    ensures count_bound { IfOk result (λ d. d.count ≤ 511) }
{
    let count = c.count;
    if count == 0 {
        return Ok(c);
    }
    let e = c.list[count - 1];
    let oldest = e.prev_proof_round;
    if low.0 < oldest.0 {
        return Err(Refusal::Number(CHAIN_ENDS_EARLY));
    }
    Ok(c)
}

// The lowest round of a walk: the last committed proof's, or the bottom if there is none or if that is higher.
fn lowest_walked(s: &State) -> Round
    ensures { result.0 ≡ low_of s.now }
{
    let proof = s.last_committed_proof;
    Round(proof.0.saturating_sub(1)).max(s.bottom)
}

// What the trigger at place q, of this round, is refused with: 9, 13 or 15 (`filter`).
fn filter(keys: &[u64], certs: &[u64], q: usize, round: Round) -> Result<(), Refusal>
    requires { (q * 8 + 8 ≤ length keys.now) × (q < length certs.now) }
    ensures { result ≡ trigger_code keys.now certs.now q round.0 }
{
    let look = look_place(keys, q);
    let cert = Cert(certs[q]);
    match look {
        Look::Never => Err(Refusal::Number(NOT_NAMED)),
        Look::Named(_) => Err(Refusal::Number(NOT_NAMED)),
        Look::Resolved(_, p) => match p {
            DagPoint::Valid => Ok(()),
            DagPoint::TransInvalid => {
                if cert.has_proof() {
                    return Err(Refusal::Conflict(round));
                }
                if !cert.is_certified() {
                    return Err(Refusal::Number(UNUSABLE));
                }
                Ok(())
            }
            DagPoint::Invalid => not_valid(cert, round),
            DagPoint::IllFormed => not_valid(cert, round),
            DagPoint::NotFound => not_valid(cert, round),
        },
    }
}

// Whether it is a valid point.
fn is_valid(look: Look) -> bool
    ensures { result ≡ valid_of look }
{
    match look {
        Look::Never => false,
        Look::Named(_) => false,
        Look::Resolved(_, p) => match p {
            DagPoint::Valid => true,
            DagPoint::TransInvalid => false,
            DagPoint::Invalid => false,
            DagPoint::IllFormed => false,
            DagPoint::NotFound => false,
        },
    }
}

// Whether the point at place q, of this round, is a valid trigger with rounds to walk. The genesis round has none.
fn has_walk(dag: &Dag, q: usize, round: Round, low: Round) -> bool
    requires { q * 8 + 8 ≤ length dag.now.keys.now }
    ensures { result ≡ walks dag.now.state.now dag.now.keys.now q round.0 low.0 }
{
    let look = look_place(dag.keys, q);
    if !is_valid(look) {
        return false;
    }
    let marks = marks_at(dag.keys, q);
    if marks / 2 % 2 != 1 {
        return false;
    }
    let genesis = dag.state.genesis;
    if round.0 == genesis.0 {
        return false;
    }
    low.0 < round.0
}

// The chain of the trigger at place q, of this round, above the lowest one.
fn chain_from(dag: &Dag, q: usize, round: Round, low: Round) -> Result<Chain, Refusal>
    requires walkable { Walkable dag.now.state.now dag.now.keys.now dag.now.certs.now dag.now.order.now }
    requires linked { Linked dag.now.state.now dag.now.keys.now dag.now.links.now dag.now.order.now }
    requires used { Used dag.now.order.now dag.now.state.now.count q }
    requires low_lt_round { (low.0 < round.0) × (round.0 - low.0 ≤ 511) }
    ensures result_value { chain_out result ≡ chained_from dag.now.state.now dag.now.keys.now dag.now.links.now dag.now.certs.now dag.now.order.now q round.0 low.0 }
    ensures count_bound { IfOk result (λ c. c.count ≤ 511) }
{
    if !has_previous(dag.keys, dag.links, q) {
        return Err(Refusal::Number(BROKEN_CHAIN));
    }
    let first = previous(dag.keys, dag.links, q, round.prev());
    let span = round.0 - low.0;
    let c = anchor_chain(dag, low, span, first)?;
    check_oldest(c, low)
}

// Whether the id is of a peer's number and below the bottom: such a trigger yields no anchors.
fn below_bottom(s: &State, id: PointId) -> bool
    ensures { result ≡ is_below s.now id }
{
    let round = id.round;
    let bottom = s.bottom;
    if PEER_SLOTS <= id.author {
        return false;
    }
    round.0 < bottom.0
}

// The anchors that a trigger yields, by the rounds and points of tables that count as started.
pub fn chain_of(dag: &Dag, id: PointId) -> Result<Chain, Refusal>
    requires { counts_as_started (view_of dag.now) ≡ true }
    ensures result_value { chain_out result ≡ anchors_of (view_of dag.now) (id_of id) }
    ensures count_bound { IfOk result (λ c. c.count ≤ 511) }
{
    let round = id.round;
    if below_bottom(dag.state, id) {
        return Ok(no_anchors());
    }
    let q = find_named(dag.state, dag.keys, dag.order, id)?;
    filter(dag.keys, dag.certs, q, round)?;
    let low = lowest_walked(dag.state);
    if !has_walk(dag, q, round, low) {
        return Ok(no_anchors());
    }
    chain_from(dag, q, round, low)
}
