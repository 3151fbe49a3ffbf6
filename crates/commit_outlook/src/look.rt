// Origin: dag/commit/mod.rs (dequeue_anchor).
// Added by document 01, 'Outlook': one anchor is tested as for a commit, but for the gap question and the lists, and told: its id, the
// number of points in its history, and how many points it needs in each round. By document 02, N6, the anchors before it count as
// committed: `taken` has the places of their histories.
ghost use Rattle.std.specs.Prelude.{◌≡◌, ◌+◌, ◌*◌, ◌-◌, ◌≤◌, length};
ghost use Rattle.laws.specs.Lists.{joined};
ghost use Rattle.laws.specs.Bytes.{be, written};
ghost use Rattle.spec.specs.History.{down_from};
ghost use Rattle.models.specs.Tables.{Inside, Used};
ghost use Rattle.models.specs.Refusal.{no_refusal};
ghost use Rattle.dag_round_keys.specs.Sorted.{Sorted};
ghost use Rattle.tables_test.specs.Refines.{Started};
ghost use Rattle.back_history.specs.Supposing.{supposing};
ghost use Rattle.back_committable.specs.Model.{gathered_of, tested_of};
ghost use Rattle.back_order.specs.Counts.{counts_by};
ghost use Rattle.commit_outlook.specs.Look.{look_long, look_bytes, look_code, Took};

use crate::take::take_history;
use answer_bytes::{put_id, put_number};
use back_committable::anchor::{gather_history, test_supposed};
use back_order::count_round;
use back_walk::EnqueuedAnchor;
use commit_state::dag::Dag;
use models::output::{COUNT_BYTES, LOOK_BYTES};
use models::parts::Round;
use models::place::round_at;
use models::refusal::{NO_ROOM, Refusal};
use models::tables::PLACES_MAX;

// The tests of one anchor, and the number of its bytes, which the clause `bytes` says of a refused one too.
#[derive(Clone, Copy)]
pub struct Look {
    pub check: Result<(), Refusal>,
    pub size: usize,
}

// The bytes of an anchor: its id, the number of points, a count for each round down to the lowest.
fn look_size(round: Round, lowest: Round) -> usize
    requires { round.0 ≤ 4000000000 }
    ensures { result ≡ 41 + (round.0 + 1 - lowest.0) * 4 }
{
    let above = round.plus(1);
    let rounds = above.minus(lowest.0);
    let n = rounds.0 as usize;
    LOOK_BYTES + n * COUNT_BYTES
}

// The tests of one anchor, with `left` bytes of the buffer left. One that passes takes its history.
pub fn look_one(dag: &Dag, taken: &mut [bool; PLACES_MAX], e: EnqueuedAnchor, left: usize) -> Look
    requires started { Started dag.now.state.now dag.now.keys.now dag.now.links.now dag.now.certs.now dag.now.order.now }
    requires used { Used dag.now.order.now dag.now.state.now.count e.anchor × (length taken.old ≡ 4096) }
    ensures outcome { result.check ≡ look_code
        (tested_of dag.now.state.now dag.now.keys.now dag.now.links.now (supposing taken.old dag.now.certs.now) dag.now.order.now e.anchor).check left
        (look_long dag.now.keys.now e.anchor (gathered_of dag.now.state.now dag.now.keys.now dag.now.links.now (supposing taken.old dag.now.certs.now) dag.now.order.now e.anchor)) }
    ensures bytes { result.size ≡ look_long dag.now.keys.now e.anchor
        (gathered_of dag.now.state.now dag.now.keys.now dag.now.links.now (supposing taken.old dag.now.certs.now) dag.now.order.now e.anchor) }
    ensures took { result.check ≡ no_refusal → Took dag.now.certs.now dag.now.order.now taken.old
        (gathered_of dag.now.state.now dag.now.keys.now dag.now.links.now (supposing taken.old dag.now.certs.now) dag.now.order.now e.anchor) taken.new }
{
    let a = e.anchor as usize;
    let t = test_supposed(dag, taken, a);
    let round = round_at(dag.keys, a);
    let lowest = t.lowest;
    let size = look_size(round, lowest);
    let check = t.check;
    if let Err(r) = check {
        return Look {
            check: Err(r),
            size,
        };
    }
    if left < size {
        return Look {
            check: Err(Refusal::Number(NO_ROOM)),
            size,
        };
    }
    let marks = t.marks;
    take_history(taken, &marks, dag.certs, dag.order, t.low, t.high);
    Look {
        check: Ok(()),
        size,
    }
}

// How many places are marked in each round, from `round` down to `lowest`.
fn put_counts(
    b: &mut [u8],
    at: usize,
    keys: &[u64],
    order: &[u64],
    n: usize,
    marks: &[bool; PLACES_MAX],
    round: Round,
    lowest: Round,
) -> usize
    requires keys_len { (length keys.now ≡ length order.now * 8) × (n ≤ length order.now) × (length order.now ≤ 4096) × Inside order.now n (length order.now) }
    requires sorted { Sorted keys.now order.now n × (round.0 ≤ 4000000000) × (at + (round.0 + 1 - lowest.0) * 4 ≤ length b.old) }
    ensures next { result ≡ at + (round.0 + 1 - lowest.0) * 4 }
    ensures bytes { b.new ≡ written b.old at
        (joined (be 4) (counts_by keys.now order.now n marks.now (down_from round.0 (round.0 + 1 - lowest.0)))) }
{
    let top = round.0;
    let low = lowest.0;
    let mut next = at;
    for r in (low..=top).rev() {
        let count = count_round(keys, order, n, marks, Round(r));
        next = put_number(b, next, 4, count as u64);
    }
    next
}

// The bytes of an anchor that passed, from byte `at` on; it takes its history. That is gathered again, without the tests: the counts of
// all anchors are too many to keep.
pub fn put_look(
    dag: &Dag,
    taken: &mut [bool; PLACES_MAX],
    b: &mut [u8],
    at: usize,
    e: EnqueuedAnchor,
) -> usize
    requires started { Started dag.now.state.now dag.now.keys.now dag.now.links.now dag.now.certs.now dag.now.order.now }
    requires used { Used dag.now.order.now dag.now.state.now.count e.anchor × (length taken.old ≡ 4096) }
    requires anchor_in_bounds { at + look_long dag.now.keys.now e.anchor (gathered_of dag.now.state.now dag.now.keys.now dag.now.links.now (supposing taken.old dag.now.certs.now) dag.now.order.now e.anchor) ≤ length b.old }
    ensures next { result ≡ at + look_long dag.now.keys.now e.anchor
        (gathered_of dag.now.state.now dag.now.keys.now dag.now.links.now (supposing taken.old dag.now.certs.now) dag.now.order.now e.anchor) }
    ensures bytes { b.new ≡ written b.old at (look_bytes dag.now.state.now.count dag.now.keys.now dag.now.order.now e.anchor
        (gathered_of dag.now.state.now dag.now.keys.now dag.now.links.now (supposing taken.old dag.now.certs.now) dag.now.order.now e.anchor)) }
    ensures took { Took dag.now.certs.now dag.now.order.now taken.old
        (gathered_of dag.now.state.now dag.now.keys.now dag.now.links.now (supposing taken.old dag.now.certs.now) dag.now.order.now e.anchor) taken.new }
{
    let a = e.anchor as usize;
    let round = round_at(dag.keys, a);
    let g = gather_history(dag, taken, a);
    let span = g.span;
    let lowest = span.lowest;
    let marks = g.marks;
    let m = put_id(b, at, dag.keys, a);
    let c = put_number(b, m, 4, g.count as u64);
    let n = dag.state.count;
    let end = put_counts(b, c, dag.keys, dag.order, n, &marks, round, lowest);
    take_history(taken, &marks, dag.certs, dag.order, span.low, span.high);
    end
}
