// Origin: dag/commit/inspector.rs (inspect).
// How many points of each author pass each test, by one pass over the points of a round.
ghost use Rattle.std.specs.Prelude.{◌≡◌, ◌+◌, ◌*◌, ◌-◌, ◌<◌, length};
ghost use Rattle.spec.specs.Inspect.{one};
ghost use Rattle.back_history.specs.Model.{Range};
ghost use Rattle.inspector_counters.specs.Counts.{Few, no_counts, counting, Counted};

use crate::tests::{Passed, version_at};
use models::tables::PEERS_MAX;

#[derive(Clone, Copy)]
pub struct PointCounts {
    pub found: u16,
    pub valid: u16,
    pub proved: u16,
    pub trans_invalid: u16,
    pub invalid: u16,
    pub ill_formed: u16,
}

// One more if it holds.
fn add_if(n: u16, holds: bool) -> u16
    requires { n < 65535 }
    ensures { result ≡ n + one holds }
{
    n + u16::from(holds)
}

impl PointCounts {
    pub fn new() -> PointCounts
        ensures { result ≡ no_counts }
    {
        PointCounts {
            found: 0,
            valid: 0,
            proved: 0,
            trans_invalid: 0,
            invalid: 0,
            ill_formed: 0,
        }
    }

    // With one version more, by the tests that it passes.
    pub fn add(self, version: Passed) -> PointCounts
        requires { Few self }
        ensures { result ≡ counting self version }
    {
        PointCounts {
            found: add_if(self.found, version.found),
            valid: add_if(self.valid, version.valid),
            proved: add_if(self.proved, version.proved),
            trans_invalid: add_if(self.trans_invalid, version.trans_invalid),
            invalid: add_if(self.invalid, version.invalid),
            ill_formed: add_if(self.ill_formed, version.ill_formed),
        }
    }
}

// The counts of authors 0 to 31, of the points at positions `low` to `high`.
pub fn round_counts(
    keys: &[u64],
    certs: &[u64],
    order: &[u64],
    low: usize,
    high: usize,
) -> [PointCounts; PEERS_MAX]
    requires range { Range certs.now order.now low high }
    requires keys_len { length keys.now ≡ length order.now * 8 }
    ensures { Counted keys.now certs.now order.now low (high - low) result }
{
    let mut counts = [PointCounts::new(); PEERS_MAX];
    for &point in &order[low..high] {
        let q = laws::slot(point);
        let author = laws::slot(models::place::author(keys, q));
        if author < PEERS_MAX {
            let version = version_at(keys, certs, q);
            let passed = version.inspect();
            let cell = counts[author];
            counts[author] = cell.add(passed);
        }
    }
    counts
}
