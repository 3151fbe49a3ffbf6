// Origin: dag/commit/inspector.rs (inspect).
// One inspected round: the counters of all peers, the signers that are reported, and the size of its events of kind 5.
ghost use Rattle.std.specs.Prelude.{◌≡◌, true, ◌<◌, ◌≤◌, length};
ghost use Rattle.spec.specs.Rules.{counts_as_started};
ghost use Rattle.tables_test.specs.View.{view_of};
ghost use Rattle.inspector_inspect.specs.Inspected.{skipped_of, Peers, Skips, CountersAre, RoundInspected};

use crate::round::{emit_reported, report};
use commit_state::dag::Dag;
use dag_round_order::span::span_at;
use inspector_counters::counters::{is_leader, peer_counters};
use inspector_counters::counts::{PointCounts, round_counts};
use inspector_events::emitted::Emitted;
use inspector_not_referenced::references_skipped;
use models::parts::Round;
use models::tables::{PEERS_MAX, ROUND_SLOTS};
use stats::MempoolPeerCounters;

// What is found at a round: the counters of peers 0 to 31, the signers that are reported, and where the events of kind 5 end, and their
// number.
#[derive(Clone, Copy)]
pub struct Inspected {
    pub counters: [MempoolPeerCounters; PEERS_MAX],
    pub signers: u64,
    pub owed: Emitted,
}

// By how many of the first n rows peer a is reported; the rows aren't read if it isn't among the signers.
fn skipped_of(sets: &[u64], n: usize, signers: u64, a: u32) -> u16
    requires { (n ≤ length sets.now) × (n ≤ 128) × (a < 32) }
    ensures { result ≡ skipped_of sets.now n signers a }
{
    if (signers >> a) % 2 == 1 {
        return references_skipped(sets, n, a);
    }
    0
}

// The counters of peers 0 to 31, from the counts of their points, the used mark of the round, and the signers reported by the first n rows.
fn counters_of(
    counts: [PointCounts; PEERS_MAX],
    used: u32,
    sets: &[u64],
    n: usize,
    signers: u64,
) -> [MempoolPeerCounters; PEERS_MAX]
    requires { (n ≤ length sets.now) × (n ≤ 128) }
    ensures { Peers counts used sets.now n signers 32 result }
{
    let mut counters = [MempoolPeerCounters::new(); PEERS_MAX];
    for (a, &found) in counts.iter().enumerate() {
        let leader = is_leader(used, a as u32);
        let skipped = skipped_of(sets, n, signers, a as u32);
        counters[a] = peer_counters(found, leader, skipped);
    }
    counters
}

// The counters of all peers at a retained round with these signers.
fn round_counters(
    dag: &Dag,
    round: Round,
    sets: &[u64],
    n: usize,
    signers: u64,
) -> [MempoolPeerCounters; PEERS_MAX]
    requires order_value { counts_as_started (view_of dag.now) ≡ true }
    requires bottom_le_round { (dag.now.state.now.bottom.0 ≤ round.0) × (round.0 ≤ dag.now.state.now.top.0) × (n ≤ length sets.now) × (n ≤ 128) }
    requires skips { Skips dag.now.state.now dag.now.keys.now dag.now.links.now dag.now.certs.now dag.now.order.now round.0 sets.now n signers }
    ensures { CountersAre dag.now.state.now dag.now.keys.now dag.now.links.now dag.now.certs.now dag.now.order.now round.0 result }
{
    let span = span_at(dag.keys, dag.order, dag.state.count, round);
    let counts = round_counts(dag.keys, dag.certs, dag.order, span.low, span.high);
    let record = dag.state.rounds[(round.0 % ROUND_SLOTS) as usize];
    counters_of(counts, record.used_anchor_proof, sets, n, signers)
}

// Inspects a retained round; fills the rows that it meets. Of the buffer nothing is written.
pub fn inspect(dag: &Dag, round: Round, rows: &mut [u64], b: &mut [u8]) -> Inspected
    requires order_value { counts_as_started (view_of dag.now) ≡ true }
    requires bottom_le_round { (dag.now.state.now.bottom.0 ≤ round.0) × (round.0 ≤ dag.now.state.now.top.0) × (1408 ≤ length rows.old) }
    ensures { RoundInspected dag.now.state.now dag.now.keys.now dag.now.links.now dag.now.certs.now dag.now.order.now round.0 result
        × (b.new ≡ b.old) }
{
    let x = report(dag, round, rows);
    let sets = x.sets;
    let signers = x.signers;
    let counters = round_counters(dag, round, &sets, x.rows, signers);
    let none = Emitted { at: 0, count: 0 };
    let owed = emit_reported(dag, round, rows, x, b, none, false);
    Inspected {
        counters,
        signers,
        owed,
    }
}
