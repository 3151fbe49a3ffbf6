// Origin: models/output.rs (AnchorData), dag/commit/mod.rs (dequeue_anchor), dag/commit/back.rs (gather_uncommitted: shuffle, push_front).
// An anchor's record. `marks` are the places that the anchor needs, `by` what is noted for them, and the place lists say the order inside
// each round.
ghost use Rattle.std.specs.Prelude.{◌≡◌, true, ◌+◌, ◌*◌, ◌<◌, ◌≤◌, ◌-◌, length, take, drop};
ghost use Rattle.laws.specs.Bytes.{written};
ghost use Rattle.spec.specs.History.{each_once};
ghost use Rattle.back_order.specs.Linked.{Run, linked_by};
ghost use Rattle.back_order.specs.Counts.{count_by};
ghost use Rattle.back_order.specs.Drawn.{new_of, out_by};
ghost use Rattle.back_behind.specs.Model.{Sourced};
ghost use Rattle.output_record.specs.Links.{links_of};
ghost use Rattle.output_record.specs.Model.{flag_of, head_of, points_of, Wrote, Room, record_of, executes, is_first_of, previous_of};
ghost use Rattle.output_record.specs.Listed.{history_by, Listable, round_by, RoundListed};

use crate::links::put_link;
use crate::sums::{PayloadSums, put_sums};
use answer_bytes::{put_id, put_number};
use back_order::{byte_at, count_linked, ranked};
use commit_state::state::State;
use dag_round_order::span::span_at;
use models::cert::Cert;
use models::output::{ID_BYTES, LINK_BYTES};
use models::parts::Round;
use models::tables::PLACES_MAX;

// Point k, at place q, if it isn't committed: its id, and what is told of it. Returns the number of points then. The ids begin at `ids`,
// the links at `told`.
fn put_new(
    b: &mut [u8],
    ids: usize,
    told: usize,
    k: usize,
    keys: &[u64],
    certs: &[u64],
    by: &[u16; PLACES_MAX],
    q: usize,
) -> usize
    requires q_bound { (q < 4096) × (q < length certs.now) × (length certs.now * 8 ≤ length keys.now) × Sourced (length keys.now) by.now }
    requires room { Room ids told k (length (new_of certs.now q)) (length b.old) }
    ensures { Wrote keys.now by.now ids told b.old k (new_of certs.now q) b.new result }
{
    let cert = Cert(certs[q]);
    if cert.is_committed() {
        return k;
    }
    put_id(b, ids + k * ID_BYTES, keys, q);
    put_link(b, told + k * LINK_BYTES, keys, by, q);
    k + 1
}

// The new points of a round, from point k on, its n needed points at positions from `low` to `high`, from the last byte of its list to the
// first. Each byte is a rank: its place is picked "out of the round's places".
fn put_round(
    b: &mut [u8],
    ids: usize,
    told: usize,
    k: usize,
    keys: &[u64],
    certs: &[u64],
    by: &[u16; PLACES_MAX],
    marks: &[bool; PLACES_MAX],
    order: &[u64],
    lists: &[u8],
    from: usize,
    low: usize,
    high: usize,
    n: usize,
) -> usize
    requires n_in_bounds { (from + n ≤ length lists.now) × (each_once n (take n (drop from lists.now)) ≡ true) × (length certs.now * 8 ≤ length keys.now)
        × (length certs.now ≡ length order.now) × (length order.now ≤ 4096) × Sourced (length keys.now) by.now }
    requires run { Run order.now low high × (n ≡ length (linked_by order.now marks.now low (high - low))) }
    requires room { Room ids told k (length (out_by certs.now (linked_by order.now marks.now low (high - low)) (take n (drop from lists.now)))) (length b.old) }
    ensures { Wrote keys.now by.now ids told b.old k
        (out_by certs.now (linked_by order.now marks.now low (high - low)) (take n (drop from lists.now))) b.new result }
{
    let mut end = k;
    for i in (0..n).rev() {
        let v = byte_at(lists, from + i);
        let q = ranked(marks, order, low, high, v);
        end = put_new(b, ids, told, end, keys, certs, by, q);
    }
    end
}

// After a round: the number of points, and the offset of the lists of the rounds above.
#[derive(Clone, Copy)]
struct Done {
    points: usize,
    end: usize,
}

// The new points of one round, from point k on; its list ends at `end`.
fn put_one(
    b: &mut [u8],
    ids: usize,
    told: usize,
    k: usize,
    keys: &[u64],
    by: &[u16; PLACES_MAX],
    marks: &[bool; PLACES_MAX],
    order: &[u64],
    certs: &[u64],
    n: usize,
    lists: &[u8],
    end: usize,
    round: Round,
) -> Done
    requires round_listed { RoundListed keys.now order.now n certs.now marks.now lists.now end round.0 × Sourced (length keys.now) by.now }
    requires room { Room ids told k (length (round_by keys.now order.now n certs.now marks.now lists.now end round.0)) (length b.old) }
    ensures { (result.end ≡ end - count_by keys.now order.now n marks.now round.0) × Wrote keys.now by.now ids told
        b.old k (round_by keys.now order.now n certs.now marks.now lists.now end round.0) b.new
        result.points }
{
    let span = span_at(keys, order, n, round);
    let count = count_linked(marks, order, span.low, span.high);
    let from = end - count;
    let points = put_round(
        b, ids, told, k, keys, certs, by, marks, order, lists, from, span.low, span.high, count,
    );
    Done { points, end: from }
}

// The points of the history, rounds rising from `lowest` to `round`; their lists lie backwards from `end`. `by` has what is noted for
// their places.
pub fn put_points(
    b: &mut [u8],
    ids: usize,
    told: usize,
    keys: &[u64],
    by: &[u16; PLACES_MAX],
    marks: &[bool; PLACES_MAX],
    order: &[u64],
    certs: &[u64],
    n: usize,
    lists: &[u8],
    end: usize,
    round: Round,
    lowest: Round,
)
    requires listable { Listable keys.now order.now n certs.now marks.now lists.now end round.0 lowest.0 × Sourced (length keys.now) by.now }
    requires room { Room ids told 0 (length (history_by keys.now order.now n certs.now marks.now lists.now end round.0 lowest.0)) (length b.old) }
    ensures { b.new ≡ written (written b.old ids (points_of keys.now
        (history_by keys.now order.now n certs.now marks.now lists.now end round.0 lowest.0))) told
        (links_of keys.now by.now
        (history_by keys.now order.now n certs.now marks.now lists.now end round.0 lowest.0)) }
{
    let above = round.plus(1);
    let rounds = above.minus(lowest.0);
    let total = rounds.0;
    let mut points: usize = 0;
    let mut from = end;
    for k in 0..total {
        let r = lowest.plus(k);
        let done = put_one(
            b, ids, told, points, keys, by, marks, order, certs, n, lists, from, r,
        );
        points = done.points;
        from = done.end;
    }
}

fn flag(x: bool) -> u64
    ensures { result ≡ flag_of x }
{
    if x { 1 } else { 0 }
}

fn wide(x: u32) -> u64
    ensures { result ≡ x }
{
    x as u64
}

// What stands before the points' ids: 83 bytes.
pub fn put_head(
    b: &mut [u8],
    at: usize,
    keys: &[u64],
    anchor: usize,
    proof: usize,
    executable: bool,
    previous: Round,
    count: usize,
) -> usize
    requires { (at + 83 ≤ length b.old) × (anchor * 8 + 8 ≤ length keys.now) × (proof * 8 + 8 ≤ length keys.now) }
    ensures { (result ≡ at + 83) × (b.new ≡ written b.old at (head_of keys.now anchor proof executable previous.0 count)) }
{
    let a1 = put_id(b, at, keys, anchor);
    let a2 = put_id(b, a1, keys, proof);
    let a3 = put_number(b, a2, 1, flag(executable));
    let a4 = put_number(b, a3, 4, wide(previous.0));
    put_number(b, a4, 4, count as u64)
}

// The whole record, of `count` points: their ids, what is told of each, and the sums over them.
pub fn put_record(
    b: &mut [u8],
    at: usize,
    keys: &[u64],
    by: &[u16; PLACES_MAX],
    marks: &[bool; PLACES_MAX],
    order: &[u64],
    certs: &[u64],
    n: usize,
    lists: &[u8],
    end: usize,
    round: Round,
    lowest: Round,
    anchor: usize,
    proof: usize,
    executable: bool,
    previous: Round,
    count: usize,
    sums: PayloadSums,
) -> usize
    requires listable { Listable keys.now order.now n certs.now marks.now lists.now end round.0 lowest.0 × Sourced (length keys.now) by.now }
    requires anchor_in_bounds { (anchor < length certs.now) × (proof < length certs.now) × (count ≡ length
        (history_by keys.now order.now n certs.now marks.now lists.now end round.0 lowest.0)) × (at + 99 + count * 82 ≤ length b.old) }
    ensures { (result ≡ at + 99 + count * 82) × (b.new ≡ written b.old at (record_of keys.now by.now anchor proof executable previous.0
        (history_by keys.now order.now n certs.now marks.now lists.now end round.0 lowest.0) sums.len sums.bytes)) }
{
    let ids = put_head(b, at, keys, anchor, proof, executable, previous, count);
    let told = ids + count * ID_BYTES;
    put_points(
        b, ids, told, keys, by, marks, order, certs, n, lists, end, round, lowest,
    );
    put_sums(b, told + count * LINK_BYTES, sums)
}

// Whether an anchor of this round is executable.
pub fn executable(s: &State, round: Round) -> bool
    ensures { result ≡ executes s.now round.0 }
{
    let first = s.first_executable;
    first.0 <= round.0
}

// Whether it is the first executable one after a gap, once the gap question was put.
pub fn is_first_executable(s: &State, round: Round) -> bool
    ensures { result ≡ is_first_of s.now round.0 }
{
    if s.emit_first_after_gap <= 1 {
        return false;
    }
    executable(s, round)
}

// The round of the anchor before the one of this round, whose top proof stands in round prev_proof; 0 for none.
pub fn previous_anchor(s: &State, round: Round, prev_proof: Round) -> Round
    ensures { result.0 ≡ previous_of s.now round.0 prev_proof.0 }
{
    let genesis = s.genesis;
    let below = prev_proof.prev();
    if below.0 <= genesis.0 {
        return Round(0);
    }
    if is_first_executable(s, round) {
        return Round(0);
    }
    below
}
