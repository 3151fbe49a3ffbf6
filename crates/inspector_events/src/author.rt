// Origin: dag/commit/inspector.rs (take_events).
// The faults of one author's points at a round: kinds 1 to 3 with the id of each, kind 4 with the digests of all.
ghost use Rattle.std.specs.Prelude.{◌≡◌, [], ◌∷◌, ◌+◌, ◌*◌, ◌-◌, ◌≤◌, length};
ghost use Rattle.laws.specs.Bytes.{be};
ghost use Rattle.spec.specs.Inspect.{single, event_bytes};
ghost use Rattle.answer_bytes.specs.Bytes.{place_id};
ghost use Rattle.back_history.specs.Model.{Range};
ghost use Rattle.inspector_counters.specs.Count.{count_of};
ghost use Rattle.inspector_counters.specs.declared.tests.PointTest.TheVariants.{Found};
ghost use Rattle.inspector_events.specs.Told.{Told, Ready};
ghost use Rattle.inspector_events.specs.Author.{singles_of, digests_of, fork_of};

use crate::emitted::Emitted;
use answer_bytes::{emit_digest, emit_id, emit_number};
use inspector_counters::tests::{PointTest, passes};
use models::parts::Round;
use models::tables::{KEY_DIGEST, KEY_WORDS};

// The event of this kind with the id at place q.
pub fn emit_single(
    b: &mut [u8],
    e: Emitted,
    write: bool,
    kind: u64,
    keys: &[u64],
    q: usize,
) -> Emitted
    requires { Ready event_bytes write b.old e (single kind (place_id keys.now q) ∷ []) × (q * 8 + 8 ≤ length keys.now) }
    ensures { Told event_bytes write b.old e (single kind (place_id keys.now q) ∷ []) result b.new }
{
    let id = emit_number(b, e.at, write, 1, kind);
    let at = emit_id(b, id, write, keys, q);
    Emitted {
        at,
        count: e.count + 1,
    }
}

// Those of the author's points from position `low` to `high` that pass the test.
pub fn emit_singles(
    keys: &[u64],
    certs: &[u64],
    order: &[u64],
    low: usize,
    high: usize,
    b: &mut [u8],
    e: Emitted,
    write: bool,
    author: u32,
    kind: u64,
    test: PointTest,
) -> Emitted
    requires range { Range certs.now order.now low high × (length keys.now ≡ length order.now * 8) }
    requires ready { Ready event_bytes write b.old e (singles_of keys.now certs.now order.now low (high - low) kind test author) }
    ensures { Told event_bytes write b.old e (singles_of keys.now certs.now order.now low (high - low) kind test author) result b.new }
{
    let mut out = e;
    for &point in &order[low..high] {
        let q = laws::slot(point);
        if passes(keys, certs, q, author, test) {
            out = emit_single(b, out, write, kind, keys, q);
        }
    }
    out
}

// The digests of the author's points there that are found.
fn emit_digests(
    keys: &[u64],
    certs: &[u64],
    order: &[u64],
    low: usize,
    high: usize,
    b: &mut [u8],
    e: Emitted,
    write: bool,
    author: u32,
) -> Emitted
    requires range { Range certs.now order.now low high × (length keys.now ≡ length order.now * 8) }
    requires ready { Ready (be 32) write b.old e (digests_of keys.now certs.now order.now low (high - low) author) }
    ensures { Told (be 32) write b.old e (digests_of keys.now certs.now order.now low (high - low) author) result b.new }
{
    let mut out = e;
    for &point in &order[low..high] {
        let q = laws::slot(point);
        if passes(keys, certs, q, author, PointTest::Found) {
            let at = emit_digest(b, out.at, write, keys, q * KEY_WORDS + KEY_DIGEST);
            out = Emitted {
                at,
                count: out.count + 1,
            };
        }
    }
    out
}

// The equivocation of an author of whose points there so many are found: none for a single one.
pub fn emit_fork(
    keys: &[u64],
    certs: &[u64],
    order: &[u64],
    low: usize,
    high: usize,
    b: &mut [u8],
    e: Emitted,
    write: bool,
    author: u32,
    round: Round,
    found: u16,
) -> Emitted
    requires range { Range certs.now order.now low high × (length keys.now ≡ length order.now * 8) }
    requires found_value { found ≡ count_of keys.now certs.now order.now low high author Found }
    requires ready { Ready event_bytes write b.old e (fork_of author round.0 (digests_of keys.now certs.now order.now low (high - low) author)) }
    ensures { Told event_bytes write b.old e
        (fork_of author round.0 (digests_of keys.now certs.now order.now low (high - low) author)) result b.new }
{
    if 1 < found {
        let a1 = emit_number(b, e.at, write, 1, 4);
        let a2 = emit_number(b, a1, write, 1, author as u64);
        let a3 = emit_number(b, a2, write, 4, round.0 as u64);
        let a4 = emit_number(b, a3, write, 4, found as u64);
        let from = Emitted { at: a4, count: 0 };
        let digests = emit_digests(keys, certs, order, low, high, b, from, write, author);
        return Emitted {
            at: digests.at,
            count: e.count + 1,
        };
    }
    e
}
