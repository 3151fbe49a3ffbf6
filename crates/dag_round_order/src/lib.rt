// Origin: dag/dag_round.rs (add_dependency), dag/commit/back.rs (drain_upto).
// `order` holds the used places in its first n cells. A place is put in, the first are taken out, a free one is found, a point is written,
// the used places are marked; the positions of a round are found (span).
#![tactic(auto)]

ghost use Rattle.std.specs.Prelude.{◌≡◌, ◌+◌, ◌*◌, ◌/◌, ◌<◌, ◌≤◌, length};
ghost use Rattle.dag_round_keys.specs.Key.{key};
ghost use Rattle.dag_round_keys.specs.Sorted.{Sorted, place_of};
ghost use Rattle.dag_round_order.specs.Shift.{inserted, drained};
ghost use Rattle.dag_round_order.specs.Free.{first_free};
ghost use Rattle.dag_round_order.specs.Store.{stored};
ghost use Rattle.dag_round_order.specs.Marks.{marked};
ghost use Rattle.models.specs.Tables.{Inside};

use models::tables::{KEY_WORDS, PLACES_MAX};

pub mod span;

// Puts the place in at position `at`: the cells from there to n move up by one.
pub fn insert(order: &mut [u64], n: usize, at: usize, place: u64)
    requires { (at ≤ n) × (n < length order.old) }
    ensures { order.new ≡ inserted order.old n at place }
{
    // No `copy_within`, here and in `drain`: it is C's `memmove`, and the library needs `memcpy` and `memset` of a host and no more.
    for k in (at..n).rev() {
        order[k + 1] = order[k];
    }
    order[at] = place;
}

// Takes the first k out: the cells from k to n move down.
pub fn drain(order: &mut [u64], n: usize, k: usize)
    requires { (k ≤ n) × (n ≤ length order.old) }
    ensures { order.new ≡ drained order.old n k }
{
    for i in 0..n - k {
        order[i] = order[k + i];
    }
}

// The least place below `places` that is not among the first n, or `places`.
pub fn free_place(order: &[u64], n: usize, places: usize) -> usize
    requires { (n ≤ length order.now) × ((places ≤ 4096) × Inside order.now n places) }
    ensures { result ≡ first_free order.now n places }
{
    let mut seen = [false; PLACES_MAX];
    for &cell in &order[..n] {
        seen[laws::slot(cell)] = true;
    }
    seen[..places]
        .iter()
        .position(|&used| !used)
        .unwrap_or(places)
}

// Writes the id into place s, and puts s in where the id's key belongs.
pub fn put(keys: &mut [u64], order: &mut [u64], n: usize, s: usize, id: &[u64])
    requires s_in_bounds { (s * 8 + 8 ≤ length keys.old) × (8 ≤ length id.now) × (n < length order.old) × Inside order.old n (length keys.old / 8) }
    requires sorted { Sorted keys.old order.old n }
    ensures words { keys.new ≡ stored keys.old id.now s 8 }
    ensures order { order.new ≡ inserted order.old n (place_of keys.old order.old n (key id.now 0)) s }
{
    let at = dag_round_keys::seek(keys, order, n, id);
    dag_round_keys::copy_words(keys, s * KEY_WORDS, id, 0, KEY_WORDS);
    insert(order, n, at, s as u64);
}

// Marks the first n places of the order.
pub fn mark(marks: &mut [bool], order: &[u64], n: usize)
    requires order_in_bounds { (length order.now ≤ length marks.old) × (n ≤ length order.now) }
    requires inside { Inside order.now n (length order.now) }
    ensures { marks.new ≡ marked marks.old order.now n }
{
    for &cell in &order[..n] {
        marks[laws::slot(cell)] = true;
    }
}
