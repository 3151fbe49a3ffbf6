// Origin: dag/commit/back.rs (drain_upto).
// The rounds below a new bottom go: their points' places are zeroed and free again.
#![tactic(auto)]

ghost use Rattle.std.specs.Prelude.{◌≡◌, ◌*◌, ◌≤◌, length};
ghost use Rattle.models.specs.Tables.{Inside};
ghost use Rattle.dag_round_order.specs.Shift.{drained};
ghost use Rattle.dag_round_keys.specs.Zero.{emptied};

use models::tables::{KEY_WORDS, LINK_WORDS};

// Zeroes the places in the first k cells of the order and takes them out.
pub fn drain_upto(
    keys: &mut [u64],
    links: &mut [u64],
    certs: &mut [u64],
    order: &mut [u64],
    n: usize,
    k: usize,
)
    requires k_le_n { (k ≤ n) × (n ≤ length order.old) × (length keys.old ≡ length order.old * 8) × (length links.old ≡ length order.old * 328) × (length certs.old ≡ length order.old) }
    requires inside { Inside order.old n (length order.old) }
    ensures keys { keys.new ≡ emptied keys.old 8 order.old k }
    ensures links { links.new ≡ emptied links.old 328 order.old k }
    ensures certs { certs.new ≡ emptied certs.old 1 order.old k }
    ensures order { order.new ≡ drained order.old n k }
{
    dag_round_keys::zero_places(keys, KEY_WORDS, order, k);
    dag_round_keys::zero_places(links, LINK_WORDS, order, k);
    dag_round_keys::zero_places(certs, 1, order, k);
    dag_round_order::drain(order, n, k);
}
