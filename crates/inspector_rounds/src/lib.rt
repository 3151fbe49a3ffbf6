// Origin: dag/commit/inspector.rs (inspect, take_stats), dag/commit/mod.rs (remove_committed).
// The rounds that a remove inspects: the counters of their peers, and the references that signers owe.
#![tactic(auto)]

ghost use Rattle.std.specs.Prelude.{◌≡◌, true, ◌+◌, ◌<◌, ◌≤◌, length};
ghost use Rattle.spec.specs.Rules.{counts_as_started};
ghost use Rattle.spec.specs.Inspect.{no_inclusions, shown, over, event_bytes};
ghost use Rattle.spec.specs.Inspection.{first_shown};
ghost use Rattle.stats.specs.Ranges.{since_of};
ghost use Rattle.tables_test.specs.View.{view_of};
ghost use Rattle.inspector_events.specs.Told.{Told, Ready};
ghost use Rattle.inspector_rounds.specs.Merge.{AllBelow, RoundMerged};
ghost use Rattle.inspector_rounds.specs.Rounds.{SignersHold, Summed, RoundAdded, RoundsInspected};

use commit_state::dag::Dag;
use inspector_events::emitted::Emitted;
use inspector_inspect::inspect::inspect;
use inspector_inspect::round::emit_owed;
use models::parts::{Round, has_peer};
use models::tables::{PEERS_MAX, ROUND_SLOTS, ROWS_WORDS};
use stats::MempoolPeerCounters;
use stats::peer_stats::MempoolPeerStats;
use stats::ranges::is_since;

// The counters of all peers, and how many references are owed and how many bytes they take.
#[derive(Clone, Copy)]
pub struct Inspection {
    pub stats: [MempoolPeerStats; PEERS_MAX],
    pub owed: Emitted,
}

// With one round more, of which these signers are reported.
#[derive(Clone, Copy)]
struct Added {
    sum: Inspection,
    signers: u64,
}

// With the counters of one round more, if it is counted: those of its peers.
fn merge_round(
    stats: [MempoolPeerStats; PEERS_MAX],
    peers: u32,
    counted: bool,
    round: Round,
    counters: [MempoolPeerCounters; PEERS_MAX],
) -> [MempoolPeerStats; PEERS_MAX]
    requires { (length stats ≡ 32) × AllBelow 4294967295 stats }
    ensures { RoundMerged stats peers counted round counters result }
{
    if !counted {
        return stats;
    }
    let mut merged = stats;
    for (author, &more) in counters.iter().enumerate() {
        if has_peer(peers, author as u32) {
            let peer = merged[author];
            merged[author] = peer.add_in_order(round, more);
        }
    }
    merged
}

// The sum with the round that is k rounds above the first.
fn add_round(
    dag: &Dag,
    first: Round,
    k: u32,
    stats_since: Option<Round>,
    sum: Inspection,
    rows: &mut [u64],
    b: &mut [u8],
) -> Added
    requires order_value { counts_as_started (view_of dag.now) ≡ true }
    requires first_value { (first.0 ≡ first_shown (view_of dag.now)) × (first.0 + k < dag.now.state.now.top.0) × (1408 ≤ length rows.old) }
    requires summed { Summed dag.now.state.now dag.now.keys.now dag.now.links.now dag.now.certs.now dag.now.order.now (since_of stats_since) k sum }
    ensures { RoundAdded dag.now.state.now dag.now.keys.now dag.now.links.now dag.now.certs.now dag.now.order.now (since_of stats_since) k result
        × (b.new ≡ b.old) }
{
    let round = first.plus(k);
    let inspected = inspect(dag, round, rows, b);
    let record = dag.state.rounds[(round.0 % ROUND_SLOTS) as usize];
    let counted = is_since(stats_since, round);
    let stats = sum.stats;
    let counters = inspected.counters;
    let merged = merge_round(stats, record.peers, counted, round, counters);
    let so_far = sum.owed;
    let more = inspected.owed;
    let owed = Emitted {
        at: so_far.at + more.at,
        count: so_far.count + more.count,
    };
    Added {
        sum: Inspection {
            stats: merged,
            owed,
        },
        signers: inspected.signers,
    }
}

// All rounds from `first` to below `low`: the sum, and the signers that are reported at each.
pub fn inspect_rounds(
    dag: &Dag,
    first: Round,
    low: Round,
    stats_since: Option<Round>,
    signers: &mut [u64],
    b: &mut [u8],
) -> Inspection
    requires order_value { counts_as_started (view_of dag.now) ≡ true }
    requires first_value { (first.0 ≡ first_shown (view_of dag.now)) × (low.0 ≤ dag.now.state.now.top.0) × (512 ≤ length signers.old) }
    ensures { RoundsInspected dag.now.state.now dag.now.keys.now dag.now.links.now dag.now.certs.now dag.now.order.now low.0 (since_of stats_since) signers.new result
        × (b.new ≡ b.old) }
{
    let rounds = low.minus(first.0);
    let n = rounds.0;
    let mut rows: [u64; ROWS_WORDS] = [0; ROWS_WORDS];
    let mut sum = Inspection {
        stats: [MempoolPeerStats::new(Round(0)); PEERS_MAX],
        owed: Emitted { at: 0, count: 0 },
    };
    for k in 0..n {
        let next = add_round(dag, first, k, stats_since, sum, &mut rows, b);
        signers[k as usize] = next.signers;
        sum = next.sum;
    }
    sum
}

// The references owed at these rounds, as events of kind 5; a round without signers has none.
pub fn emit_signer_rounds(
    dag: &Dag,
    first: Round,
    low: Round,
    signers: &[u64],
    b: &mut [u8],
    e: Emitted,
    write: bool,
) -> Emitted
    requires order_value { counts_as_started (view_of dag.now) ≡ true }
    requires first_value { (first.0 ≡ first_shown (view_of dag.now)) × (low.0 ≤ dag.now.state.now.top.0) }
    requires signers_hold { SignersHold (view_of dag.now) low.0 signers.now }
    requires ready { Ready event_bytes write b.old e (over (no_inclusions (view_of dag.now))
        (shown (view_of dag.now) low.0)) }
    ensures { Told event_bytes write b.old e (over (no_inclusions (view_of dag.now))
        (shown (view_of dag.now) low.0)) result b.new }
{
    let rounds = low.minus(first.0);
    let n = rounds.0;
    let mut rows: [u64; ROWS_WORDS] = [0; ROWS_WORDS];
    let mut out = e;
    for k in 0..n {
        let reported = signers[k as usize];
        if reported != 0 {
            out = emit_owed(dag, first.plus(k), &mut rows, b, out, write);
        }
    }
    out
}
