// Origin: dag/commit/mod.rs (is_once_after_gap, extend_from_ahead, drop_upto), dag/commit/back.rs (extend_from_front, drain_upto).
// The gap question, a round added, rounds dropped.
#![tactic(auto)]

ghost use Rattle.std.specs.Prelude.{◌≡◌, ◌≤◌, []};
ghost use Rattle.spec.specs.Calls as calls;
ghost use Rattle.commit_answer.specs.Answer.{Did, tables, left};
ghost use Rattle.commit_rounds.specs.Gap.{gap_left};
ghost use Rattle.commit_rounds.specs.Round.{round_check, with_round, round_left};
ghost use Rattle.commit_rounds.specs.Drop.{drop_left};

use back_drain::drain_upto;
use commit_answer::answer::{Answer, Outcome, refused};
use commit_state::back::{ask_state, drop_state, extend_state};
use commit_state::dag::Dag;
use commit_state::state::State;
use dag_round_order::span::cut;
use models::parts::Round;
use models::refusal::{FULL, ROUND_AHEAD, Refusal, WRONG_PHASE};
use models::tables::{ROUND_MAX, ROUND_SLOTS};
use tables_test::counts_as_started;

// The gap question: yes if it is waited for, and then it is put.
pub fn is_once_after_gap(
    s: State,
    keys: &[u64],
    links: &[u64],
    certs: &[u64],
    order: &[u64],
) -> Outcome
    ensures { Did calls.gap_question gap_left (tables s keys.now links.now certs.now order.now)
        (left result keys.now links.now certs.now order.now []) }
{
    let dag = Dag {
        state: &s,
        keys,
        links,
        certs,
        order,
    };
    if !counts_as_started(&dag) {
        return refused(s, Refusal::Number(WRONG_PHASE));
    }
    if s.emit_first_after_gap != 1 {
        return Outcome {
            answer: Answer::Flag(false),
            state: s,
        };
    }
    let put = ask_state(s);
    Outcome {
        answer: Answer::Flag(true),
        state: put,
    }
}

// Whether a round is refused, with the rounds from bottom to top retained.
fn check_round(bottom: Round, top: Round, round: Round) -> Result<(), Refusal>
    requires { (bottom.0 ≤ top.0) × (top.0 ≤ 4000000000) }
    ensures { result ≡ round_check bottom.0 top.0 round.0 }
{
    if top.0 + 1 < round.0 {
        return Err(Refusal::Number(ROUND_AHEAD));
    }
    if ROUND_MAX < round.0 {
        return Err(Refusal::Number(ROUND_AHEAD));
    }
    if round.0 <= top.0 {
        return Ok(());
    }
    if ROUND_SLOTS <= top.0 + 1 - bottom.0 {
        return Err(Refusal::Number(FULL));
    }
    Ok(())
}

// The state with the round, which is at most one above the top.
fn with_round(s: State, round: Round, peers: u32) -> State
    requires { (s.top.0 ≤ 4000000000) × (round.0 ≤ 4000000000) }
    ensures { result ≡ with_round s round.0 peers }
{
    let top = s.top;
    if round.0 <= top.0 {
        return s;
    }
    extend_state(s, peers)
}

// Adds a round. One at or below the top is there already.
pub fn extend_from_ahead(
    s: State,
    keys: &[u64],
    links: &[u64],
    certs: &[u64],
    order: &[u64],
    round: Round,
    peers: u32,
) -> Outcome
    ensures { Did (calls.round round.0 peers) (round_left round.0 peers) (tables s keys.now links.now certs.now order.now)
        (left result keys.now links.now certs.now order.now []) }
{
    let dag = Dag {
        state: &s,
        keys,
        links,
        certs,
        order,
    };
    if !counts_as_started(&dag) {
        return refused(s, Refusal::Number(WRONG_PHASE));
    }
    let bottom = s.bottom;
    let top = s.top;
    let check = check_round(bottom, top, round);
    if let Err(why) = check {
        return refused(s, why);
    }
    let next = with_round(s, round, peers);
    Outcome {
        answer: Answer::Done,
        state: next,
    }
}

// Drops the rounds below, but for the top. Yes if all of the range is dropped.
pub fn drop_upto(
    s: State,
    keys: &mut [u64],
    links: &mut [u64],
    certs: &mut [u64],
    order: &mut [u64],
    round: Round,
) -> Outcome
    ensures { Did (calls.drop round.0) (drop_left round.0) (tables s keys.old links.old certs.old order.old)
        (left result keys.new links.new certs.new order.new []) }
{
    let dag = Dag {
        state: &s,
        keys,
        links,
        certs,
        order,
    };
    if !counts_as_started(&dag) {
        return refused(s, Refusal::Number(WRONG_PHASE));
    }
    let bottom = s.bottom;
    let top = s.top;
    let n = s.count;
    let actual = round.min(top);
    let lowest = bottom.max(actual);
    let k = cut(keys, order, n, lowest);
    drain_upto(keys, links, certs, order, n, k);
    let next = drop_state(s, actual, lowest, n - k);
    Outcome {
        answer: Answer::Flag(actual.0 == round.0),
        state: next,
    }
}
