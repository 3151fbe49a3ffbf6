// Origin: dag/dag_round.rs (view), dag/commit/back.rs, dag/commit/inspector.rs (now_or_never).
// The look-up of a point. The Rust's answers a resolved point or none; this one tells a point that is named only from one that was never
// named.
ghost use Rattle.std.specs.Prelude.{◌≡◌, ◌+◌, ◌*◌, ◌≤◌, ◌/◌, length};
ghost use Rattle.models.specs.Tables.{Inside};
ghost use Rattle.dag_round_keys.specs.Sorted.{Sorted};
ghost use Rattle.dag_round_keys.specs.Look.{look_place, look_for};

use models::dag_point::DagPoint;

// A resolved point's place and case, the place of a point that is named only, or neither.
#[derive(Clone, Copy)]
pub enum Look {
    Resolved(usize, DagPoint),
    Named(usize),
    Never,
}

// Of the point at place i, which is in use.
pub fn look_place(keys: &[u64], i: usize) -> Look
    requires { i * 8 + 8 ≤ length keys.now }
    ensures { result ≡ look_place keys.now i }
{
    let case = models::place::case_at(keys, i);
    match case {
        Some(p) => Look::Resolved(i, p),
        None => Look::Named(i),
    }
}

// Of an id.
pub fn look_up(keys: &[u64], order: &[u64], n: usize, id: &[u64]) -> Look
    requires n_in_bounds { (n ≤ length order.now) × ((8 ≤ length id.now) × Inside order.now n (length keys.now / 8)) }
    requires sorted { Sorted keys.now order.now n }
    ensures { result ≡ look_for keys.now order.now n id.now }
{
    let at = crate::find_point(keys, order, n, id);
    if at < n {
        return look_place(keys, laws::slot(order[at]));
    }
    Look::Never
}
