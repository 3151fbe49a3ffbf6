// Origin: dag/dag_round.rs (add_dependency, view).
// An id is tested, a point is found by it, and a point that may be named is put into the lowest free place, with nothing but its id.
#![tactic(auto)]

ghost use Rattle.std.specs.Prelude.{◌≡◌, ◌+◌, ◌*◌, ◌<◌, ◌≤◌, length};
ghost use Rattle.laws.specs.Scan.{those};
ghost use Rattle.models.specs.Refusal.{numbered};
ghost use Rattle.models.specs.Tables.{Inside};
ghost use Rattle.dag_round_keys.specs.Sorted.{Sorted};
ghost use Rattle.dag_round_keys.specs.Look.{look_for};
ghost use Rattle.dag_round_order.specs.Free.{first_free};
ghost use Rattle.dag_round_points.specs.Model.{Ready, id_words, is_version, version_at, id_code, table_code, name_code, taken, named_state, named_keys, named_certs, named_order};
ghost use Rattle.dag_round_points.specs.Codes.{found};
ghost use Rattle.dag_round_points.specs.Point.{point_code, place_for, found_by};

use commit_state::state::State;
use dag_round_keys::look::{Look, look_up};
use models::parts::{PointId, Round};
use models::place::round_word;
use models::refusal::{
    DIGEST_NAMED, FIFTH_DIGEST, FULL, NOT_A_PEER, NOT_NAMED, NOT_RETAINED, Refusal,
};
use models::tables::{KEY_WORDS, PEER_SLOTS, ROUND_SLOTS, VERSIONS_MAX};

// The id as the words of a place that is named.
pub fn id_words(id: PointId) -> [u64; KEY_WORDS]
    ensures { result ≡ id_words id }
{
    let round = id.round;
    let digest = id.digest;
    let d = digest.0;
    let r = round.0 as u64;
    let a = id.author as u64;
    [r, a, d[0], d[1], d[2], d[3], 0, 0]
}

// Whether the place has the round and the author.
fn is_version(keys: &[u64], q: usize, round: Round, author: u32) -> bool
    requires { q * 8 + 8 ≤ length keys.now }
    ensures { result ≡ is_version keys.now round.0 author q }
{
    let r = round_word(keys, q);
    let a = models::place::author(keys, q);
    if r != round.0 as u64 {
        return false;
    }
    a == author as u64
}

// How many of the first n places have the round and the author.
fn versions(keys: &[u64], order: &[u64], n: usize, round: Round, author: u32) -> usize
    requires keys_len { (length keys.now ≡ length order.now * 8) × (n ≤ length order.now) }
    requires inside { Inside order.now n (length order.now) }
    ensures { result ≡ length (those n (version_at keys.now order.now round.0 author)) }
{
    order[..n]
        .iter()
        .filter(|&&cell| is_version(keys, laws::slot(cell), round, author))
        .count()
}

// Whether an id is refused.
pub fn check_id(s: &State, id: PointId) -> Result<(), Refusal>
    ensures { result ≡ numbered (id_code s.now id) }
{
    let round = id.round;
    let bottom = s.bottom;
    let top = s.top;
    let r = round.0;
    let author = id.author;
    if PEER_SLOTS <= author {
        return Err(Refusal::Number(NOT_A_PEER));
    }
    if r < bottom.0 {
        return Err(Refusal::Number(NOT_RETAINED));
    }
    if top.0 < r {
        return Err(Refusal::Number(NOT_RETAINED));
    }
    let x = s.rounds[(r % ROUND_SLOTS) as usize];
    if !models::parts::has_peer(x.peers, author) {
        return Err(Refusal::Number(NOT_A_PEER));
    }
    Ok(())
}

// The lowest free place, unless naming is refused after the id's own tests: the digest is there, a fifth of its author, or no place is free.
fn check_table(keys: &[u64], order: &[u64], n: usize, id: PointId) -> Result<usize, Refusal>
    requires keys_len { (length keys.now ≡ length order.now * 8) × (length order.now ≤ 4096) × (n ≤ length order.now) }
    requires inside { Inside order.now n (length order.now) }
    requires sorted { Sorted keys.now order.now n }
    ensures { result ≡ found (table_code keys.now order.now n (id_words id)) (first_free order.now n (length order.now)) }
{
    let words = id_words(id);
    let at = dag_round_keys::find(keys, order, n, &words);
    if at < n {
        return Err(Refusal::Number(DIGEST_NAMED));
    }
    let count = versions(keys, order, n, id.round, id.author);
    if VERSIONS_MAX <= count {
        return Err(Refusal::Number(FIFTH_DIGEST));
    }
    let places = order.len();
    let q = dag_round_order::free_place(order, n, places);
    if q < places {
        return Ok(q);
    }
    Err(Refusal::Number(FULL))
}

// The place that a point is to take, unless naming is refused: the tests of the id, then those of the tables.
pub fn check_name(s: &State, keys: &[u64], order: &[u64], id: PointId) -> Result<usize, Refusal>
    requires { Ready s.now keys.now order.now }
    ensures { result ≡ found (name_code s.now keys.now order.now id) (taken s.now order.now) }
{
    check_id(s, id)?;
    check_table(keys, order, s.count, id)
}

// The state with one place more in use.
fn named(s: State) -> State
    requires { s.count < 4096 }
    ensures { result ≡ named_state s }
{
    let n = s.count + 1;
    let mut next = s;
    next.count = n;
    next
}

// Puts the point into place q, the lowest free one.
pub fn name_point(
    s: State,
    keys: &mut [u64],
    certs: &mut [u64],
    order: &mut [u64],
    id: PointId,
    q: usize,
) -> State
    requires ready { Ready s keys.old order.old }
    requires certs_len { (length certs.old ≡ length order.old) × (name_code s keys.old order.old id ≡ 0) × (q ≡ taken s order.old) }
    ensures state { result ≡ named_state s }
    ensures keys { keys.new ≡ named_keys s keys.old order.old id }
    ensures certs { certs.new ≡ named_certs s certs.old order.old }
    ensures order { order.new ≡ named_order s keys.old order.old id }
{
    let words = id_words(id);
    dag_round_order::put(keys, order, s.count, q, &words);
    certs[q] = 0;
    named(s)
}

// The place of the point with this id, resolved or not.
fn find_id(keys: &[u64], order: &[u64], n: usize, id: PointId) -> Result<usize, Refusal>
    requires keys_len { (length keys.now ≡ length order.now * 8) × (n ≤ length order.now) × Inside order.now n (length order.now) }
    requires sorted { Sorted keys.now order.now n }
    ensures { result ≡ found_by (look_for keys.now order.now n (id_words id)) }
{
    let words = id_words(id);
    let look = look_up(keys, order, n, &words);
    match look {
        Look::Resolved(q, _) => Ok(q),
        Look::Named(q) => Ok(q),
        Look::Never => Err(Refusal::Number(NOT_NAMED)),
    }
}

// The place of the point that an id names, unless a call that names it is refused: the tests of the id, then whether it is named.
pub fn find_named(s: &State, keys: &[u64], order: &[u64], id: PointId) -> Result<usize, Refusal>
    requires { Ready s.now keys.now order.now }
    ensures { result ≡ found (point_code s.now keys.now order.now id) (place_for s.now keys.now order.now id) }
{
    check_id(s, id)?;
    find_id(keys, order, s.count, id)
}
