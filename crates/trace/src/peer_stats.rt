// Origin: models/stats.rs (MempoolPeerStats).
// What a remove answers of a peer, read from the bytes of an answer buffer.
ghost use Rattle.std.specs.Prelude.{◌≡◌, ◌+◌, ◌≤◌, length};
ghost use Rattle.stats.specs.Counters.{counters_of};
ghost use Rattle.trace.specs.PeerStats.{peer_of, peer_in, counters_in};

use crate::bytes::{byte_of, number_of, short_of};
use models::output::{PEER_COUNTERS, PEER_FIRST_ROUND, PEER_LAST_ROUND, PEER_SCORE};
use models::parts::Round;
use stats::MempoolPeerCounters;

// A peer with its counters over the rounds of a remove, the first and the last of them, and its score.
#[derive(Clone, Copy)]
pub struct PeerStats {
    pub peer: u32,
    pub first_round: Round,
    pub last_round: Round,
    pub cumulative: MempoolPeerCounters,
    pub score: u32,
}

// The nine counters in 18 bytes.
fn counters_of(b: &[u8], at: usize) -> MempoolPeerCounters
    requires { at + 18 ≤ length b.now }
    ensures { counters_of result ≡ counters_in b.now at }
{
    MempoolPeerCounters {
        was_leader: short_of(b, at),
        skipped_rounds: short_of(b, at + 2),
        valid_points: short_of(b, at + 4),
        points_proved: short_of(b, at + 6),
        equivocated: short_of(b, at + 8),
        trans_invalid_points: short_of(b, at + 10),
        invalid_points: short_of(b, at + 12),
        ill_formed_points: short_of(b, at + 14),
        references_skipped: short_of(b, at + 16),
    }
}

// The peer in 31 bytes.
pub fn peer_of(b: &[u8], at: usize) -> PeerStats
    requires { at + 31 ≤ length b.now }
    ensures { peer_of result ≡ peer_in b.now at }
{
    let peer = byte_of(b, at);
    let first = number_of(b, at + PEER_FIRST_ROUND);
    let last = number_of(b, at + PEER_LAST_ROUND);
    let cumulative = counters_of(b, at + PEER_COUNTERS);
    let score = number_of(b, at + PEER_SCORE);
    PeerStats {
        peer,
        first_round: Round(first),
        last_round: Round(last),
        cumulative,
        score,
    }
}
