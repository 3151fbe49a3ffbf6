// Origin: none.
// Counters summed for C: those of several removes.
ghost use Rattle.std.specs.Prelude.{◌≡◌};
ghost use Rattle.stats.specs.Counters.{merge_of};

use stats::{MempoolPeerCounters, merge_into};

// The sum is left in c; each counter stops at 65,535.
#[unsafe(no_mangle)]
pub extern "C" fn committer_merge(c: &mut MempoolPeerCounters, other: MempoolPeerCounters)
    ensures { c.new ≡ merge_of c.old other }
{
    merge_into(c, other);
}
