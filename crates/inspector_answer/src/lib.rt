// Origin: dag/commit/mod.rs (remove_committed), dag/commit/inspector.rs (take_stats, take_events).
// The answer of a remove, as bytes: the stats of the peers (peers), then the number of events and the events, first those of the
// points' faults (faults).
#![tactic(auto)]

ghost use Rattle.std.specs.Prelude.{◌≡◌, true, ◌++◌, ◌≤◌, length};
ghost use Rattle.laws.specs.Bytes.{written};
ghost use Rattle.laws.specs.Lists.{joined};
ghost use Rattle.spec.specs.Rules.{counts_as_started};
ghost use Rattle.spec.specs.Inspect.{events, event_bytes};
ghost use Rattle.spec.specs.Inspection.{first_shown};
ghost use Rattle.stats.specs.Ranges.{since_of};
ghost use Rattle.tables_test.specs.View.{view_of};
ghost use Rattle.answer_bytes.specs.Sent.{Sent};
ghost use Rattle.inspector_events.specs.Told.{Open};
ghost use Rattle.inspector_rounds.specs.Rounds.{SignersHold};
ghost use Rattle.inspector_answer.specs.Answer.{head_bytes, OwedSizes, EventsCounted};
ghost use Rattle.inspector_answer.specs.Answered.{Answered};
ghost use Rattle.inspector_answer.specs.Peers.{peer_of};

use crate::faults::emit_all_faults;
use crate::peers::emit_stats;
use answer_bytes::emit_number;
use commit_state::dag::Dag;
use inspector_events::emitted::Emitted;
use inspector_inspect::first_shown;
use inspector_rounds::{emit_signer_rounds, inspect_rounds};
use models::parts::Round;
use models::tables::{PEERS_MAX, ROUNDS_MAX};
use stats::peer_stats::MempoolPeerStats;

pub mod faults;
pub mod peers;

// The stats of the peers, and the number of events.
fn emit_head(stats: [MempoolPeerStats; PEERS_MAX], count: usize, b: &mut [u8], write: bool) -> usize
    requires { Open write b.old 0 (head_bytes (peer_of stats) count) }
    ensures { Sent write b.old 0 (head_bytes (peer_of stats) count) result b.new }
{
    let at = emit_stats(stats, b, 0, write);
    emit_number(b, at, write, 4, count as u64)
}

// The size and the number of all events, from those of the missing references.
fn count_events(dag: &Dag, first: Round, low: Round, owed: Emitted, b: &mut [u8]) -> Emitted
    requires order_value { counts_as_started (view_of dag.now) ≡ true }
    requires first_value { (first.0 ≡ first_shown (view_of dag.now)) × (low.0 ≤ dag.now.state.now.top.0) }
    requires owed_sizes { OwedSizes (view_of dag.now) low.0 owed }
    ensures { EventsCounted (view_of dag.now) low.0 result × (b.new ≡ b.old) }
{
    let none = Emitted { at: 0, count: 0 };
    let faults = emit_all_faults(dag, first, low, b, none, false);
    Emitted {
        at: faults.at + owed.at,
        count: faults.count + owed.count,
    }
}

// The answer, which has room in b.
fn emit_answer(
    dag: &Dag,
    first: Round,
    low: Round,
    stats: [MempoolPeerStats; PEERS_MAX],
    count: usize,
    signers: &[u64],
    b: &mut [u8],
)
    requires order_value { counts_as_started (view_of dag.now) ≡ true }
    requires first_value { (first.0 ≡ first_shown (view_of dag.now)) × (low.0 ≤ dag.now.state.now.top.0) }
    requires signers_hold { SignersHold (view_of dag.now) low.0 signers.now }
    requires low_in_bounds { length (head_bytes (peer_of stats) count ++ joined event_bytes (events (view_of dag.now) low.0)) ≤ length b.old }
    ensures { b.new ≡ written b.old 0
        (head_bytes (peer_of stats) count ++ joined event_bytes (events (view_of dag.now) low.0)) }
{
    let at = emit_head(stats, count, b, true);
    let e = Emitted { at, count: 0 };
    let faults = emit_all_faults(dag, first, low, b, e, true);
    emit_signer_rounds(dag, first, low, signers, b, faults, true);
}

// The answer of the rounds below `low`; whether it has room in b, which is left as it was if not.
pub fn answer_remove(dag: &Dag, low: Round, stats_since: Option<Round>, b: &mut [u8]) -> bool
    requires order_value { counts_as_started (view_of dag.now) ≡ true }
    requires low_le_top { low.0 ≤ dag.now.state.now.top.0 }
    ensures { Answered (view_of dag.now) low.0
        (since_of stats_since) b.old result b.new }
{
    let first = first_shown(dag);
    let mut signers: [u64; ROUNDS_MAX] = [0; ROUNDS_MAX];
    let found = inspect_rounds(dag, first, low, stats_since, &mut signers, b);
    let stats = found.stats;
    let events = count_events(dag, first, low, found.owed, b);
    let head = emit_head(stats, events.count, b, false);
    if b.len() < head + events.at {
        return false;
    }
    emit_answer(dag, first, low, stats, events.count, &signers, b);
    true
}
