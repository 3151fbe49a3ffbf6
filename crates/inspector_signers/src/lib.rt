// Origin: dag/commit/inspector.rs (exclude_witness, take_events).
// Kind 5, the references that a signer owes: the ids of its own points, of the memory's round first, then the ids of the proofs.
// The memory's entries are rows of 11 words: author, digest (four), and six that aren't read here.
#![tactic(auto)]

ghost use Rattle.std.specs.Prelude.{◌≡◌, [], ◌∷◌, true, false, ◌+◌, ◌*◌, ◌≤◌, ◌<◌, length};
ghost use Rattle.spec.specs.Ids.{id_bytes};
ghost use Rattle.spec.specs.Inspect.{event_bytes};
ghost use Rattle.answer_bytes.specs.Sent.{Sent};
ghost use Rattle.inspector_events.specs.Told.{Told, Open, Ready};
ghost use Rattle.inspector_signers.specs.Signers.{InKeys, row_id, row_passes, row_ids, point_ids, blamed_ids, id_list, signer_of, signers_of};

use answer_bytes::{emit_digest, emit_id, emit_number};
use inspector_events::emitted::Emitted;
use models::parts::Round;
use models::tables::{PEER_SLOTS, ROW_AUTHOR, ROW_DIGEST, ROW_WORDS};

// The id of row k, a point of this round.
pub fn emit_row_id(
    b: &mut [u8],
    at: usize,
    write: bool,
    rows: &[u64],
    k: usize,
    round: Round,
) -> usize
    requires { Open write b.old at (id_bytes (row_id rows.now round.0 k)) × (k * 11 + 11 ≤ length rows.now) }
    ensures { Sent write b.old at (id_bytes (row_id rows.now round.0 k)) result b.new }
{
    let author = rows[k * ROW_WORDS + ROW_AUTHOR];
    let a1 = emit_number(b, at, write, 4, round.0 as u64);
    let a2 = emit_number(b, a1, write, 1, author);
    emit_digest(b, a2, write, rows, k * ROW_WORDS + ROW_DIGEST)
}

// Whether row k is a proof against the signer (it is in the row's set), or else whether it is the signer's own point.
fn row_passes(rows: &[u64], sets: &[u64], k: usize, signer: u32, proofs: bool) -> bool
    requires { (k * 11 + 11 ≤ length rows.now) × (k < length sets.now) × (signer < 32) }
    ensures { result ≡ row_passes rows.now sets.now signer proofs k }
{
    if proofs {
        let set = sets[k];
        return (set >> signer) % 2 == 1;
    }
    let author = rows[k * ROW_WORDS + ROW_AUTHOR];
    author == signer as u64
}

// The ids of those of the first n rows.
fn emit_rows(
    rows: &[u64],
    sets: &[u64],
    n: usize,
    round: Round,
    b: &mut [u8],
    e: Emitted,
    write: bool,
    signer: u32,
    proofs: bool,
) -> Emitted
    requires n_in_bounds { (n * 11 ≤ length rows.now) × (n ≤ length sets.now) × (signer < 32) }
    requires ready { Ready id_bytes write b.old e (row_ids rows.now sets.now n round.0 signer proofs) }
    ensures { Told id_bytes write b.old e (row_ids rows.now sets.now n round.0 signer proofs) result b.new }
{
    let mut out = e;
    for k in 0..n {
        if row_passes(rows, sets, k, signer, proofs) {
            let at = emit_row_id(b, out.at, write, rows, k, round);
            out = Emitted {
                at,
                count: out.count + 1,
            };
        }
    }
    out
}

// The ids of the signer's points at the first m of these places.
fn emit_points(
    keys: &[u64],
    places: &[usize],
    m: usize,
    b: &mut [u8],
    e: Emitted,
    write: bool,
    signer: u32,
) -> Emitted
    requires m_in_bounds { (m ≤ length places.now) × InKeys keys.now places.now m }
    requires ready { Ready id_bytes write b.old e (point_ids keys.now places.now m signer) }
    ensures { Told id_bytes write b.old e (point_ids keys.now places.now m signer) result b.new }
{
    let mut out = e;
    for &q in &places[..m] {
        let author = models::place::author(keys, q);
        if author == signer as u64 {
            let at = emit_id(b, out.at, write, keys, q);
            out = Emitted {
                at,
                count: out.count + 1,
            };
        }
    }
    out
}

// How many ids there are of the signer's own points, and these: those of the first n rows, then those at the first m places.
fn emit_blamed(
    keys: &[u64],
    places: &[usize],
    m: usize,
    rows: &[u64],
    sets: &[u64],
    n: usize,
    last: Round,
    b: &mut [u8],
    at: usize,
    write: bool,
    signer: u32,
) -> usize
    requires m_in_bounds { (m ≤ length places.now) × InKeys keys.now places.now m }
    requires n_in_bounds { (n * 11 ≤ length rows.now) × (n ≤ length sets.now) × (signer < 32) }
    requires fact { Open write b.old at (id_list (blamed_ids keys.now places.now m rows.now sets.now n last.0 signer)) }
    ensures { Sent write b.old at (id_list (blamed_ids keys.now places.now m rows.now sets.now n last.0 signer)) result b.new }
{
    let none = Emitted { at: 0, count: 0 };
    let then = emit_rows(rows, sets, n, last, b, none, false, signer, false);
    let both = emit_points(keys, places, m, b, then, false, signer);
    let from = emit_number(b, at, write, 4, both.count as u64);
    let first = Emitted { at: from, count: 0 };
    let next = emit_rows(rows, sets, n, last, b, first, write, signer, false);
    let end = emit_points(keys, places, m, b, next, write, signer);
    end.at
}

// How many proofs there are against the signer among the first n rows, and their ids.
fn emit_proofs(
    rows: &[u64],
    sets: &[u64],
    n: usize,
    last: Round,
    b: &mut [u8],
    at: usize,
    write: bool,
    signer: u32,
) -> usize
    requires n_in_bounds { (n * 11 ≤ length rows.now) × (n ≤ length sets.now) × (signer < 32) }
    requires fact { Open write b.old at (id_list (row_ids rows.now sets.now n last.0 signer true)) }
    ensures { Sent write b.old at (id_list (row_ids rows.now sets.now n last.0 signer true)) result b.new }
{
    let none = Emitted { at: 0, count: 0 };
    let counted = emit_rows(rows, sets, n, last, b, none, false, signer, true);
    let from = emit_number(b, at, write, 4, counted.count as u64);
    let first = Emitted { at: from, count: 0 };
    let end = emit_rows(rows, sets, n, last, b, first, write, signer, true);
    end.at
}

// The event of one signer: its points in the first n rows, which are of round `last`, and at the first m places, and the proofs against it.
pub fn emit_signer(
    keys: &[u64],
    places: &[usize],
    m: usize,
    rows: &[u64],
    sets: &[u64],
    n: usize,
    last: Round,
    b: &mut [u8],
    e: Emitted,
    write: bool,
    signer: u32,
) -> Emitted
    requires m_in_bounds { (m ≤ length places.now) × InKeys keys.now places.now m }
    requires n_in_bounds { (n * 11 ≤ length rows.now) × (n ≤ length sets.now) × (signer < 32) }
    requires ready { Ready event_bytes write b.old e (signer_of keys.now places.now m rows.now sets.now n last.0 signer ∷ []) }
    ensures { Told event_bytes write b.old e
        (signer_of keys.now places.now m rows.now sets.now n last.0 signer ∷ []) result b.new }
{
    let a1 = emit_number(b, e.at, write, 1, 5);
    let a2 = emit_number(b, a1, write, 1, signer as u64);
    let a3 = emit_blamed(keys, places, m, rows, sets, n, last, b, a2, write, signer);
    let at = emit_proofs(rows, sets, n, last, b, a3, write, signer);
    Emitted {
        at,
        count: e.count + 1,
    }
}

// Those of all signers of a round, rising.
pub fn emit_signers(
    keys: &[u64],
    places: &[usize],
    m: usize,
    rows: &[u64],
    sets: &[u64],
    n: usize,
    last: Round,
    b: &mut [u8],
    e: Emitted,
    write: bool,
    signers: u64,
) -> Emitted
    requires m_in_bounds { (m ≤ length places.now) × InKeys keys.now places.now m }
    requires n_in_bounds { (n * 11 ≤ length rows.now) × (n ≤ length sets.now) }
    requires ready { Ready event_bytes write b.old e (signers_of keys.now places.now m rows.now sets.now n last.0 signers 32) }
    ensures { Told event_bytes write b.old e
        (signers_of keys.now places.now m rows.now sets.now n last.0 signers 32) result b.new }
{
    let mut out = e;
    for signer in 0..PEER_SLOTS {
        if (signers >> signer) % 2 == 1 {
            out = emit_signer(keys, places, m, rows, sets, n, last, b, out, write, signer);
        }
    }
    out
}
