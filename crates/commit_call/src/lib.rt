// Origin: dag/commit/mod.rs (commit).
// The call commit: the chain of a trigger's anchors, then each of them, oldest first.
#![tactic(auto)]

ghost use Rattle.std.specs.Prelude.{◌≡◌, true, ◌≤◌};
ghost use Rattle.spec.specs.Calls as calls;
ghost use Rattle.spec.specs.Rules.{counts_as_started};
ghost use Rattle.spec.specs.Walk.{Rising};
ghost use Rattle.models.specs.Parts.{id_of};
ghost use Rattle.tables_test.specs.View.{view};
ghost use Rattle.back_chain.specs.Chain.{chain_of};
ghost use Rattle.commit_answer.specs.Answer.{Did, tables, left};
ghost use Rattle.commit_call.specs.Commit.{ended_of, Ended, commit_left};

use back_chain::{Chain, chain_of};
use commit_answer::answer::{Answer, Outcome, refused};
use commit_dequeue::all::commit_all;
use commit_state::dag::Dag;
use commit_state::state::State;
use models::parts::PointId;
use models::refusal::{Refusal, WRONG_PHASE};
use tables_test::counts_as_started;

// The outcome of a commit that finished this many anchors.
fn ended(check: Result<(), Refusal>, state: State, finished: u32) -> Outcome
    ensures { result ≡ ended_of check state finished }
{
    match check {
        Ok(()) => Outcome {
            answer: Answer::Anchors(finished),
            state,
        },
        Err(r) => Outcome {
            answer: Answer::Refused(r, finished),
            state,
        },
    }
}

// The anchors of a chain. A function apart, so that no function declares both the chain and its list.
fn commit_chain(
    s: State,
    keys: &[u64],
    links: &[u64],
    certs: &mut [u64],
    order: &[u64],
    lists: &[u8],
    b: &mut [u8],
    c: Chain,
) -> Outcome
    requires order_value { counts_as_started (view s keys.now links.now certs.old order.now) ≡ true }
    requires rising { Rising (view s keys.now links.now certs.old order.now) 0 (chain_of c.list c.count) }
    requires count_bound { c.count ≤ 511 }
    ensures { Ended keys.now links.now order.now s certs.old lists.now b.old
        (chain_of c.list c.count) result certs.new b.new }
{
    let list = c.list;
    let all = commit_all(s, keys, links, certs, order, lists, b, list, c.count);
    let check = all.check;
    ended(check, all.state, all.finished)
}

// Commits the anchors that a trigger yields: their records go into the buffer, their histories are marked. The lists say the order
// inside each round, anchor by anchor. A refusal says how many anchors are finished; they stay so.
pub fn commit(
    s: State,
    keys: &[u64],
    links: &[u64],
    certs: &mut [u64],
    order: &[u64],
    id: PointId,
    lists: &[u8],
    b: &mut [u8],
) -> Outcome
    ensures { Did (calls.commit (id_of id) lists.now b.old) (commit_left (id_of id) lists.now b.old)
        (tables s keys.now links.now certs.old order.now)
        (left result keys.now links.now certs.new order.now b.new) }
{
    let dag = Dag {
        state: &s,
        keys,
        links,
        certs,
        order,
    };
    if !counts_as_started(&dag) {
        return refused(s, Refusal::Number(WRONG_PHASE));
    }
    match chain_of(&dag, id) {
        Err(why) => refused(s, why),
        Ok(c) => commit_chain(s, keys, links, certs, order, lists, b, c),
    }
}
