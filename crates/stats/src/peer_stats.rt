// Origin: models/stats.rs (MempoolPeerStats).
// The counters of a peer over the rounds of a remove, with the first and the last of them.
ghost use Rattle.std.specs.Prelude.{◌≡◌, ◌<◌};
ghost use Rattle.stats.specs.PeerStats.{no_stats, added_in_order};

use crate::{MempoolPeerCounters, merged};
use models::parts::Round;

// `filled_rounds` is 0 if the peer has no counters yet; the others then say nothing. No Option, as in the Rust: `stats_of` says what they say.
#[derive(Clone, Copy)]
pub struct MempoolPeerStats {
    pub first_round: Round,
    pub last_round: Round,
    pub filled_rounds: u32,
    pub cumulative: MempoolPeerCounters,
}

impl MempoolPeerStats {
    // No rounds yet.
    pub fn new(round: Round) -> MempoolPeerStats
        ensures { result ≡ no_stats round }
    {
        MempoolPeerStats {
            first_round: round,
            last_round: Round(0),
            filled_rounds: 0,
            cumulative: MempoolPeerCounters::new(),
        }
    }

    // With the counters of one round more. The rounds of a remove rise, so none is out of order.
    pub fn add_in_order(self, round: Round, counters: MempoolPeerCounters) -> MempoolPeerStats
        requires { self.filled_rounds < 4294967295 }
        ensures { result ≡ added_in_order self round counters }
    {
        if self.filled_rounds == 0 {
            return MempoolPeerStats {
                first_round: round,
                last_round: round,
                filled_rounds: 1,
                cumulative: counters,
            };
        }
        let first_round = self.first_round;
        let cumulative = self.cumulative;
        MempoolPeerStats {
            first_round,
            last_round: round,
            filled_rounds: self.filled_rounds + 1,
            cumulative: merged(cumulative, counters),
        }
    }
}
