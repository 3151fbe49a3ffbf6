// Origin: dag/commit/inspector.rs (take_stats), models/stats.rs (MempoolPeerStats).
// The stats of the peers as bytes, written or only counted.
ghost use Rattle.std.specs.Prelude.{◌≡◌};
ghost use Rattle.laws.specs.Bytes.{be};
ghost use Rattle.laws.specs.Lists.{joined};
ghost use Rattle.spec.specs.Inspect.{counter_list, stats_bytes};
ghost use Rattle.stats.specs.Counters.{counters_of};
ghost use Rattle.stats.specs.PeerStats.{stats_of};
ghost use Rattle.answer_bytes.specs.Sent.{Sent};
ghost use Rattle.inspector_events.specs.Told.{Open};
ghost use Rattle.inspector_answer.specs.Peers.{peer_of, peers_bytes, with_stats};

use answer_bytes::emit_number;
use models::parts::peer_count;
use models::tables::PEERS_MAX;
use stats::MempoolPeerCounters;
use stats::peer_stats::MempoolPeerStats;

// The nine counters, two bytes each.
fn emit_counters(b: &mut [u8], at: usize, write: bool, counters: MempoolPeerCounters) -> usize
    requires { Open write b.old at (joined (be 2) (counter_list (counters_of counters))) }
    ensures { Sent write b.old at (joined (be 2) (counter_list (counters_of counters))) result b.new }
{
    let counts = counters.counts();
    let mut out = at;
    for &count in &counts {
        out = emit_number(b, out, write, 2, count as u64);
    }
    out
}

// The stats of one peer, nothing if it has none.
fn emit_peer(b: &mut [u8], at: usize, write: bool, peer: u32, stats: MempoolPeerStats) -> usize
    requires { Open write b.old at (stats_bytes peer (stats_of stats)) }
    ensures { Sent write b.old at (stats_bytes peer (stats_of stats)) result b.new }
{
    if stats.filled_rounds == 0 {
        return at;
    }
    let first_round = stats.first_round;
    let last_round = stats.last_round;
    let counters = stats.cumulative;
    let score = counters.score();
    let first = emit_number(b, at, write, 1, peer as u64);
    let last = emit_number(b, first, write, 4, first_round.0 as u64);
    let counts = emit_number(b, last, write, 4, last_round.0 as u64);
    let end = emit_counters(b, counts, write, counters);
    emit_number(b, end, write, 4, score as u64)
}

// The peers that have stats, as a set.
fn peers_with_stats(stats: [MempoolPeerStats; PEERS_MAX]) -> u32
    ensures { result ≡ with_stats stats }
{
    let mut peers: u32 = 0;
    for (k, peer) in stats.iter().enumerate() {
        if peer.filled_rounds != 0 {
            peers = peers | (1 << k as u32);
        }
    }
    peers
}

// The number of peers that have stats, and those of each, by rising number of the peer.
pub fn emit_stats(
    stats: [MempoolPeerStats; PEERS_MAX],
    b: &mut [u8],
    at: usize,
    write: bool,
) -> usize
    requires { Open write b.old at (peers_bytes (peer_of stats)) }
    ensures { Sent write b.old at (peers_bytes (peer_of stats)) result b.new }
{
    let peers = peer_count(peers_with_stats(stats));
    let mut out = emit_number(b, at, write, 1, peers as u64);
    for (k, &peer) in stats.iter().enumerate() {
        out = emit_peer(b, out, write, k as u32, peer);
    }
    out
}
