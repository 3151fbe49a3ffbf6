// Origin: dag/commit/back.rs (drain_upto), dag/dag_round.rs (a round's points).
// The positions of a round in the order: the used places stand by rising round.
ghost use Rattle.std.specs.Prelude.{◌≡◌, ◌*◌, ◌≤◌, length};
ghost use Rattle.models.specs.Tables.{Inside};
ghost use Rattle.dag_round_keys.specs.Sorted.{Sorted};
ghost use Rattle.dag_round_order.specs.Span.{below, span_of};

use models::parts::Round;

// The positions of the points of a round, from `low` to `high`.
#[derive(Clone, Copy)]
pub struct Span {
    pub low: usize,
    pub high: usize,
}

// How many of the first n places are of rounds below `bottom`: they stand first in the order.
pub fn cut(keys: &[u64], order: &[u64], n: usize, bottom: Round) -> usize
    requires keys_len { (length keys.now ≡ length order.now * 8) × (n ≤ length order.now) × Inside order.now n (length order.now) }
    requires sorted { Sorted keys.now order.now n }
    ensures { result ≡ below keys.now order.now n bottom.0 }
{
    let round = bottom.0 as u64;
    let least = [round, 0, 0, 0, 0, 0, 0, 0];
    dag_round_keys::seek(keys, order, n, &least)
}

// Those of this round, of the first n.
pub fn span_at(keys: &[u64], order: &[u64], n: usize, round: Round) -> Span
    requires keys_len { (length keys.now ≡ length order.now * 8) × (n ≤ length order.now) × Inside order.now n (length order.now) }
    requires sorted { Sorted keys.now order.now n × (round.0 ≤ 4000000000) }
    ensures { result ≡ span_of keys.now order.now n round.0 }
{
    let low = cut(keys, order, n, round);
    let high = cut(keys, order, n, round.plus(1));
    Span {
        low: low,
        high: high,
    }
}
