// Origin: dag/commit/mod.rs (dequeue_anchor).
// One anchor and its lists are tested, then its record is written, its history marked and the state brought up to it.
ghost use Rattle.std.specs.Prelude.{◌≡◌, true, ◌+◌, ◌*◌, ◌-◌, ◌≤◌, length, drop};
ghost use Rattle.laws.specs.Bytes.{written};
ghost use Rattle.spec.specs.Rules.{counts_as_started};
ghost use Rattle.spec.specs.History.{lists_ok};
ghost use Rattle.spec.specs.Walk.{Anchored};
ghost use Rattle.models.specs.Tables.{round_at, author_at};
ghost use Rattle.tables_test.specs.View.{view};
ghost use Rattle.back_walk.specs.Refines.{enqueued_of};
ghost use Rattle.back_behind.specs.Model.{Sourced};
ghost use Rattle.output_record.specs.ModelState.{after_state};
ghost use Rattle.commit_dequeue.specs.Model.{Listing, Drawable, Placed, number_for, counts_for, size_for, record_for, step_of, one_of};
ghost use Rattle.commit_dequeue.specs.Refines.{Says};

use back_behind::link_sources;
use back_committable::anchor::test_anchor;
use back_order::{Listed, lists_fit};
use back_walk::EnqueuedAnchor;
use commit_state::dag::Dag;
use commit_state::state::State;
use models::output::{POINT_BYTES, RECORD_BYTES};
use models::parts::Round;
use models::place::round_at;
use models::refusal::{BAD_LISTS, GAP_QUESTION, NO_ROOM, Refusal};
use models::tables::PLACES_MAX;
use output_record::after::{after_anchor, mark_all};
use output_record::record::{executable, previous_anchor, put_record};
use output_record::sums::{PayloadSums, payload_sums};

// The tests of one anchor; the state, the next free byte, and the offset after the anchor's lists, which the clauses say of a refused one too.
#[derive(Clone, Copy)]
pub struct One {
    pub check: Result<(), Refusal>,
    pub state: State,
    pub end: usize,
    pub lists_end: usize,
}

// What refuses an anchor of this many points: its tests, 20 while the gap question isn't put, 24 if its lists aren't right, 21 if its
// record is longer than what is left of the buffer.
fn number_for(
    check: Result<(), Refusal>,
    gap: u32,
    listed: bool,
    count: usize,
    left: usize,
) -> Result<(), Refusal>
    requires { count ≤ 4096 }
    ensures { result ≡ number_for check gap listed count left }
{
    check?;
    if gap == 1 {
        return Err(Refusal::Number(GAP_QUESTION));
    }
    if !listed {
        return Err(Refusal::Number(BAD_LISTS));
    }
    if left < RECORD_BYTES + count * POINT_BYTES {
        return Err(Refusal::Number(NO_ROOM));
    }
    Ok(())
}

// Whether the anchor's lists, from `from` on, are right, and the offset after them.
fn list_anchor(
    dag: &Dag,
    lists: &[u8],
    from: usize,
    e: EnqueuedAnchor,
    marks: &[bool; PLACES_MAX],
    lowest: Round,
) -> Listed
    requires listing { Listing dag.now.state.now dag.now.keys.now dag.now.order.now (enqueued_of e) }
    requires from_in_bounds { from ≤ length lists.now }
    ensures ok_value { result.ok ≡ lists_ok (counts_for dag.now.state.now dag.now.keys.now dag.now.order.now marks.now lowest.0 e.anchor) (drop from lists.now) }
    ensures end_value { result.ok ≡ true → result.end ≡ from + size_for dag.now.state.now dag.now.keys.now dag.now.order.now marks.now lowest.0 e.anchor }
{
    let round = round_at(dag.keys, e.anchor as usize);
    lists_fit(
        dag.keys,
        dag.order,
        dag.state.count,
        marks,
        lists,
        from,
        round,
        lowest,
    )
}

// The record of the anchor, of `count` points, in the order that its lists say, which end at `lists_end`; what `by` notes for each, then
// the sums over them.
fn put_anchor(
    dag: &Dag,
    lists: &[u8],
    lists_end: usize,
    b: &mut [u8],
    at: usize,
    e: EnqueuedAnchor,
    by: &[u16; PLACES_MAX],
    marks: &[bool; PLACES_MAX],
    lowest: Round,
    count: usize,
    sums: PayloadSums,
) -> usize
    requires drawable { Drawable dag.now.state.now dag.now.keys.now dag.now.certs.now dag.now.order.now lists.now lists_end marks.now lowest.0 (enqueued_of e) count × Sourced (length dag.now.keys.now) by.now }
    requires placed { Placed dag.now.keys.now dag.now.certs.now (enqueued_of e) }
    requires count_in_bounds { at + 99 + count * 82 ≤ length b.old }
    ensures { (result ≡ at + 99 + count * 82) × (b.new ≡ written b.old at (record_for dag.now.state.now dag.now.keys.now by.now dag.now.certs.now
        dag.now.order.now marks.now lowest.0 (drop (lists_end - size_for dag.now.state.now dag.now.keys.now dag.now.order.now marks.now lowest.0 e.anchor)
        lists.now) (enqueued_of e) sums.len sums.bytes)) }
{
    let anchor = e.anchor as usize;
    let proof = e.proof as usize;
    let round = round_at(dag.keys, anchor);
    let x = executable(dag.state, round);
    let prev_proof_round = e.prev_proof_round;
    let before = previous_anchor(dag.state, round, prev_proof_round);
    let n = dag.state.count;
    put_record(
        b, at, dag.keys, by, marks, dag.order, dag.certs, n, lists, lists_end, round, lowest,
        anchor, proof, x, before, count, sums,
    )
}

// The state after the anchor.
fn next_state(s: State, keys: &[u64], certs: &[u64], e: EnqueuedAnchor) -> State
    requires certs_in_bounds { length certs.now * 8 ≤ length keys.now }
    requires placed { Placed keys.now certs.now (enqueued_of e) }
    ensures { result ≡ after_state s (round_at keys.now e.anchor) (round_at keys.now e.proof) (author_at keys.now e.anchor) }
{
    let anchor = e.anchor as usize;
    let proof = e.proof as usize;
    let ar = round_at(keys, anchor);
    let pr = round_at(keys, proof);
    let author = models::place::author(keys, anchor) as u32;
    after_anchor(s, ar, pr, author)
}

// One anchor, its lists from `from` on, its record from byte `at` on. Nothing changes if it is refused.
pub fn dequeue_anchor(
    s: State,
    keys: &[u64],
    links: &[u64],
    certs: &mut [u64],
    order: &[u64],
    lists: &[u8],
    from: usize,
    b: &mut [u8],
    at: usize,
    e: EnqueuedAnchor,
) -> One
    requires order_value { counts_as_started (view s keys.now links.now certs.old order.now) ≡ true }
    requires anchored { Anchored (view s keys.now links.now certs.old order.now) (enqueued_of e) }
    requires from_in_bounds { (from ≤ length lists.now) × (at ≤ length b.old) }
    ensures words { step_of result.check result.state certs.new b.new result.end result.lists_end ≡ one_of s keys.now links.now
        certs.old order.now lists.now from b.old at (enqueued_of e) }
    ensures says { Says (view s keys.now links.now certs.old order.now) (drop from lists.now) b.old at
        (enqueued_of e) result.check (view result.state keys.now links.now certs.new order.now) (drop result.lists_end lists.now)
        b.new result.end }
{
    let dag = Dag {
        state: &s,
        keys,
        links,
        certs,
        order,
    };
    let t = test_anchor(&dag, e.anchor as usize);
    let marks = t.marks;
    let listed = list_anchor(&dag, lists, from, e, &marks, t.lowest);
    let tested = t.check;
    let left = b.len() - at;
    let check = number_for(tested, s.emit_first_after_gap, listed.ok, t.count, left);
    if let Err(r) = check {
        return One {
            check: Err(r),
            state: s,
            end: at,
            lists_end: from,
        };
    }
    let sums = payload_sums(&marks, &dag, t.low, t.high);
    let bottom = s.bottom;
    let by = link_sources(
        dag.keys, dag.links, dag.certs, dag.order, bottom, t.low, t.high, &marks,
    );
    let lists_end = listed.end;
    let end = put_anchor(
        &dag, lists, lists_end, b, at, e, &by, &marks, t.lowest, t.count, sums,
    );
    let next = next_state(s, keys, certs, e);
    mark_all(&marks, order, certs, t.low, t.high);
    One {
        check: Ok(()),
        state: next,
        end,
        lists_end,
    }
}
