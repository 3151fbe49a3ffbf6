// Origin: intercom/peer_schedule/stats_ranges.rs (stats_since).
// From which round on the peers are counted.
ghost use Rattle.std.specs.Prelude.{◌≡◌};
ghost use Rattle.spec.specs.Inspect.{since};
ghost use Rattle.stats.specs.Ranges.{since_of};

use models::parts::Round;

// Whether the counters of this round are reported: `stats_since` of a remove, none suppresses all.
pub fn is_since(stats_since: Option<Round>, round: Round) -> bool
    ensures { result ≡ since (since_of stats_since) round.0 }
{
    match stats_since {
        None => false,
        Some(first) => first.0 <= round.0,
    }
}
