// Origin: dag/commit/inspector.rs (inspect), models/stats.rs (MempoolPeerCounters).
// The counters of a peer at one round, from the counts of its points.
ghost use Rattle.std.specs.Prelude.{◌≡◌, ◌-◌};
ghost use Rattle.spec.specs.Inspect.{one};
ghost use Rattle.inspector_counters.specs.Counters.{assembled, leads};

use crate::counts::PointCounts;
use stats::MempoolPeerCounters;

// Whether the used mark of a round, the author plus 1 or 0 for none, is this author's.
pub fn is_leader(used: u32, author: u32) -> bool
    ensures { result ≡ leads used author }
{
    used.checked_sub(1) == Some(author)
}

// 1 if it holds, else 0.
fn one_if(holds: bool) -> u16
    ensures { result ≡ one holds }
{
    u16::from(holds)
}

// All but one.
fn less_one(x: u16) -> u16
    ensures { result ≡ x - 1 }
{
    x.saturating_sub(1)
}

// The counters of a peer with these counts, and with this number of references skipped, which the Rust adds apart from the others.
pub fn peer_counters(counts: PointCounts, leader: bool, references: u16) -> MempoolPeerCounters
    ensures { result ≡ assembled counts leader references }
{
    let counters = MempoolPeerCounters {
        was_leader: one_if(leader),
        skipped_rounds: one_if(counts.found == 0),
        valid_points: one_if(0 < counts.valid),
        points_proved: counts.proved,
        equivocated: less_one(counts.found),
        trans_invalid_points: counts.trans_invalid,
        invalid_points: counts.invalid,
        ill_formed_points: counts.ill_formed,
        references_skipped: 0,
    };
    counters.add_references_skipped(references)
}
