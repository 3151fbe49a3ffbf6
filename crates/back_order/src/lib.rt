// Origin: dag/commit/back.rs (gather_uncommitted: sort, shuffle).
// The order inside a round: how many points of a round an anchor needs, their places by rising digest, and whether the lent lists
// say an order of each round.
#![tactic(auto)]

ghost use Rattle.std.specs.Prelude.{◌≡◌, true, ◌+◌, ◌*◌, ◌-◌, ◌<◌, ◌≤◌, length, get_or, take, drop};
ghost use Rattle.laws.specs.Lists.{weigh};
ghost use Rattle.spec.specs.History.{down_from, each_once, lists_ok};
ghost use Rattle.models.specs.Tables.{Inside};
ghost use Rattle.dag_round_keys.specs.Sorted.{Sorted};
ghost use Rattle.back_order.specs.Linked.{Run, linked_by};
ghost use Rattle.back_order.specs.Picks.{pick_from};
ghost use Rattle.back_order.specs.Counts.{count_by, counts_by};

use dag_round_order::span::span_at;
use models::parts::Round;
use models::tables::PLACES_MAX;

// The ranks that a byte can say.
const RANKS_MAX: usize = 256;

// How many places are marked, of the positions from `low` to `high`.
pub fn count_linked(marks: &[bool; PLACES_MAX], order: &[u64], low: usize, high: usize) -> usize
    requires { Run order.now low high }
    ensures { result ≡ length (linked_by order.now marks.now low (high - low)) }
{
    order[low..high]
        .iter()
        .filter(|&&word| marks[laws::slot(word)])
        .count()
}

// The first marked position from `at` on, or `high`: positions of a round rise by digest, so it is "the needed point of least digest
// not yet picked", those below `at` being picked.
pub fn pick(marks: &[bool; PLACES_MAX], order: &[u64], at: usize, high: usize) -> usize
    requires { Run order.now at high }
    ensures { result ≡ pick_from order.now marks.now at high }
{
    match order[at..high]
        .iter()
        .position(|&word| marks[laws::slot(word)])
    {
        Some(passed) => at + passed,
        None => high,
    }
}

// The place of rank v among the marked ones of a round: "without a buffer of points", by v + 1 picks.
pub fn ranked(marks: &[bool; PLACES_MAX], order: &[u64], low: usize, high: usize, v: usize) -> usize
    requires run { Run order.now low high }
    requires v_in_bounds { v < length (linked_by order.now marks.now low (high - low)) }
    ensures value { result ≡ get_or (linked_by order.now marks.now low (high - low)) v 0 }
    ensures upper_bound { result < length order.now }
{
    let mut p = pick(marks, order, low, high);
    for _k in 0..v {
        p = pick(marks, order, p + 1, high);
    }
    dag_round_keys::place(order, high, p)
}

// One byte of the lists.
pub fn byte_at(lists: &[u8], at: usize) -> usize
    requires { at < length lists.now }
    ensures { (result ≡ get_or lists.now at 0) × (result < 256) }
{
    lists[at] as usize
}

// Whether the list of n bytes from `from` on is each place from 0 once.
pub fn each_once(lists: &[u8], from: usize, n: usize) -> bool
    requires { from ≤ length lists.now }
    ensures { result ≡ each_once n (take n (drop from lists.now)) }
{
    if lists.len() - from < n {
        return false;
    }
    let mut seen = [false; RANKS_MAX];
    for &byte in &lists[from..from + n] {
        let v = byte as usize;
        if n <= v {
            return false;
        }
        if seen[v] {
            return false;
        }
        seen[v] = true;
    }
    true
}

// How many places of a round are marked.
pub fn count_round(
    keys: &[u64],
    order: &[u64],
    n: usize,
    marks: &[bool; PLACES_MAX],
    round: Round,
) -> usize
    requires keys_len { (length keys.now ≡ length order.now * 8) × (n ≤ length order.now) × (length order.now ≤ 4096) × Inside order.now n (length order.now) }
    requires sorted { Sorted keys.now order.now n × (round.0 ≤ 4000000000) }
    ensures { result ≡ count_by keys.now order.now n marks.now round.0 }
{
    let span = span_at(keys, order, n, round);
    count_linked(marks, order, span.low, span.high)
}

// Whether the lists of an anchor are right, and the offset after them.
#[derive(Clone, Copy)]
pub struct Listed {
    pub ok: bool,
    pub end: usize,
}

// Those from `from` on, for the marked places of each round from `round` down to `lowest`.
pub fn lists_fit(
    keys: &[u64],
    order: &[u64],
    n: usize,
    marks: &[bool; PLACES_MAX],
    lists: &[u8],
    from: usize,
    round: Round,
    lowest: Round,
) -> Listed
    requires keys_len { (length keys.now ≡ length order.now * 8) × (n ≤ length order.now) × (length order.now ≤ 4096) × Inside order.now n (length order.now) }
    requires sorted { Sorted keys.now order.now n × (round.0 ≤ 4000000000) × (from ≤ length lists.now) }
    ensures ok_value { result.ok ≡ lists_ok
        (counts_by keys.now order.now n marks.now (down_from round.0 (round.0 + 1 - lowest.0))) (drop from lists.now) }
    ensures end_value { result.ok ≡ true → result.end ≡ from + weigh (λ x. x)
        (counts_by keys.now order.now n marks.now (down_from round.0 (round.0 + 1 - lowest.0))) }
{
    let above = round.plus(1);
    let rounds = above.minus(lowest.0);
    let total = rounds.0;
    let mut end = from;
    for k in 0..total {
        let r = round.minus(k);
        let count = count_round(keys, order, n, marks, r);
        if !each_once(lists, end, count) {
            return Listed { ok: false, end };
        }
        end += count;
    }
    Listed { ok: true, end }
}
