// Origin: dag/commit/mod.rs (remove_committed).
// Committed rounds are removed: the inspector reports what their peers did, then they go.
#![tactic(auto)]

ghost use Rattle.std.specs.Prelude.{◌≡◌};
ghost use Rattle.spec.specs.Calls as calls;
ghost use Rattle.spec.specs.Calls.{beyond};
ghost use Rattle.stats.specs.Ranges.{since_of};
ghost use Rattle.commit_state.specs.View.{option_of};
ghost use Rattle.commit_answer.specs.Answer.{Did, tables, left};
ghost use Rattle.commit_remove.specs.Remove.{remove_bottom, remove_left};

use back_drain::drain_upto;
use commit_answer::answer::{Answer, Outcome, refused};
use commit_state::back::removed_state;
use commit_state::dag::Dag;
use commit_state::state::State;
use dag_round_order::span::cut;
use inspector_answer::answer_remove;
use inspector_inspect::memory_after;
use models::parts::{OptionRound, Round};
use models::refusal::{NO_ROOM, REMOVE_AHEAD, Refusal, WRONG_PHASE};
use tables_test::counts_as_started;

// Whether the round is above the last anchor handed out since the start; every round is if there is none.
fn is_beyond(last: OptionRound, round: Round) -> bool
    ensures { result ≡ beyond (option_of last.0) round.0 }
{
    let word = last.0;
    if word == 0 {
        return true;
    }
    word - 1 < round.0
}

// The new bottom: H rounds below the anchor's round, but not below the old one, and a round is left.
fn remove_bottom(s: State, round: Round) -> Round
    ensures { result.0 ≡ remove_bottom s round.0 }
{
    let bottom = s.bottom;
    let top = s.top;
    let low = round.minus(s.commit_history_rounds);
    let actual = low.min(top);
    bottom.max(actual)
}

// Removes the rounds that no history needs once the anchor of this round is handed out; the inspector's answer goes to the buffer.
pub fn remove_committed(
    s: State,
    keys: &mut [u64],
    links: &mut [u64],
    certs: &mut [u64],
    order: &mut [u64],
    round: Round,
    stats_since: Option<Round>,
    b: &mut [u8],
) -> Outcome
    ensures { Did (calls.remove round.0 (since_of stats_since) b.old) (remove_left (since_of stats_since) round.0 b.old)
        (tables s keys.old links.old certs.old order.old)
        (left result keys.new links.new certs.new order.new b.new) }
{
    let dag = Dag {
        state: &s,
        keys,
        links,
        certs,
        order,
    };
    if !counts_as_started(&dag) {
        return refused(s, Refusal::Number(WRONG_PHASE));
    }
    if is_beyond(s.last_anchor, round) {
        return refused(s, Refusal::Number(REMOVE_AHEAD));
    }
    let low = remove_bottom(s, round);
    if !answer_remove(&dag, low, stats_since, b) {
        return refused(s, Refusal::Number(NO_ROOM));
    }
    let memory = memory_after(&dag, low);
    let n = s.count;
    let k = cut(keys, order, n, low);
    drain_upto(keys, links, certs, order, n, k);
    let next = removed_state(s, low, n - k, memory);
    Outcome {
        answer: Answer::Done,
        state: next,
    }
}
