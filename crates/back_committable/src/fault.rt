// Origin: dag/commit/back.rs (committable_point, gather_uncommitted).
// The first point of a history that isn't usable: rounds downwards, inside a round by rising digest.
ghost use Rattle.std.specs.Prelude.{◌≡◌, ◌+◌, ◌*◌, ◌<◌, ◌≤◌, length};
ghost use Rattle.models.specs.Tables.{round_at, Inside};
ghost use Rattle.back_history.specs.Model.{Range};
ghost use Rattle.back_committable.specs.Scan.{sooner_of};
ghost use Rattle.back_committable.specs.ModelPoints.{fault_at, faulty, round_of, first_fault, found_fault, Rounds};

use dag_round_keys::look::{Look, look_place};
use models::cert::Cert;
use models::dag_point::DagPoint;
use models::place::{round_at, round_word};
use models::refusal::{NEVER_NAMED, POINT_MISSING, Refusal, not_valid};
use models::tables::PLACES_MAX;

// What the point at place q of a history is refused with: 14, 13 or 15 (`committable_point`). A place in use was named: no 25.
pub fn committable_point(keys: &[u64], certs: &[u64], q: usize) -> Result<(), Refusal>
    requires { (q * 8 + 8 ≤ length keys.now) × (round_at keys.now q ≤ 4000000000) × (q < length certs.now) }
    ensures { result ≡ fault_at keys.now certs.now q }
{
    let look = look_place(keys, q);
    let round = round_at(keys, q);
    let cert = Cert(certs[q]);
    match look {
        Look::Never => Err(Refusal::Number(NEVER_NAMED)),
        Look::Named(_) => Err(Refusal::Number(POINT_MISSING)),
        Look::Resolved(_, p) => match p {
            DagPoint::Valid => Ok(()),
            DagPoint::TransInvalid => {
                if cert.has_proof() {
                    return Err(Refusal::Conflict(round));
                }
                Ok(())
            }
            DagPoint::Invalid => not_valid(cert, round),
            DagPoint::IllFormed => not_valid(cert, round),
            DagPoint::NotFound => not_valid(cert, round),
        },
    }
}

// Whether place q is marked and its point isn't usable.
fn is_faulty(marks: &[bool; PLACES_MAX], keys: &[u64], certs: &[u64], q: usize) -> bool
    requires { (q < 4096) × (q * 8 + 8 ≤ length keys.now) × (round_at keys.now q ≤ 4000000000) × (q < length certs.now) }
    ensures { result ≡ faulty keys.now certs.now marks.now q }
{
    if !marks[q] {
        return false;
    }
    committable_point(keys, certs, q).is_err()
}

// The sooner tested of the position found so far (`none` for none yet) and p, which stands below it.
fn sooner(keys: &[u64], order: &[u64], none: usize, found: usize, p: usize) -> usize
    requires { (none ≤ length order.now) × (found ≤ none) × (p < none) × (length keys.now ≡ length order.now * 8) × Inside order.now none (length order.now) }
    ensures { result ≡ sooner_of (round_of keys.now order.now) none found p }
{
    if found == none {
        return p;
    }
    let i = dag_round_keys::place(order, none, found);
    let j = dag_round_keys::place(order, none, p);
    let u = round_word(keys, i);
    let v = round_word(keys, j);
    if u == v {
        return p;
    }
    found
}

// The position from `low` to `high` of the first point that isn't usable, or `high`.
pub fn first_fault(
    marks: &[bool; PLACES_MAX],
    keys: &[u64],
    certs: &[u64],
    order: &[u64],
    low: usize,
    high: usize,
) -> usize
    requires range { Range certs.now order.now low high }
    requires keys_len { (length keys.now ≡ length order.now * 8) × Rounds keys.now order.now high }
    ensures { result ≡ first_fault keys.now certs.now order.now marks.now low high }
{
    let mut found = high;
    for p in (low..high).rev() {
        let q = dag_round_keys::place(order, high, p);
        if is_faulty(marks, keys, certs, q) {
            found = sooner(keys, order, high, found, p);
        }
    }
    found
}

// What the history is refused with for its points.
pub fn history_fault(
    marks: &[bool; PLACES_MAX],
    keys: &[u64],
    certs: &[u64],
    order: &[u64],
    low: usize,
    high: usize,
) -> Result<(), Refusal>
    requires range { Range certs.now order.now low high }
    requires keys_len { (length keys.now ≡ length order.now * 8) × Rounds keys.now order.now high }
    ensures { result ≡ found_fault keys.now certs.now order.now marks.now low high }
{
    let p = first_fault(marks, keys, certs, order, low, high);
    if high <= p {
        return Ok(());
    }
    let q = dag_round_keys::place(order, high, p);
    committable_point(keys, certs, q)
}
