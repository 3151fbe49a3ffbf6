// Origin: dag/commit/inspector.rs (exclude_witness, NotReferenced, inspect).
// Which signers of the rows' previous points are reported, and by which rows. The rows are those of the round below, as `inspector_rows`
// fills them; the places are those of the round's trusted points.
#![tactic(auto)]

ghost use Rattle.std.specs.Prelude.{◌≡◌, ℕ, ◌+◌, ◌*◌, ◌<◌, ◌≤◌, length, get_or};
ghost use Rattle.models.specs.Tables.{author_at};
ghost use Rattle.models.specs.Ids.{Placed};
ghost use Rattle.inspector_references.specs.Referring.{row_author};
ghost use Rattle.inspector_not_referenced.specs.Later.{same_previous, owed_later};
ghost use Rattle.inspector_not_referenced.specs.Excluded.{excluded};
ghost use Rattle.inspector_not_referenced.specs.Signers.{row_authors, place_authors, active_of, cell_of, Cells, skipped_by};

use inspector_references::{referring, with_peer, without};
use models::tables::{
    PEERS_MAX, ROUND_POINTS_MAX, ROW_AUTHOR, ROW_PEERS, ROW_PREVIOUS, ROW_SIGNED, ROW_WORDS,
};

// The signers that are reported, of each row and of all.
#[derive(Clone, Copy)]
pub struct NotReferenced {
    pub sets: [u64; ROUND_POINTS_MAX],
    pub signers: u64,
}

// Whether row j has a previous point, with the digest of row k's.
fn same_previous(rows: &[u64], k: usize, j: usize) -> bool
    requires { (k * 11 + 11 ≤ length rows.now) × (j * 11 + 11 ≤ length rows.now) }
    ensures { result ≡ same_previous rows.now k j }
{
    let previous = rows[j * ROW_WORDS + ROW_PREVIOUS];
    if previous == 0 {
        return false;
    }
    dag_round_keys::same_digest(
        rows,
        j * ROW_WORDS + ROW_SIGNED,
        rows,
        k * ROW_WORDS + ROW_SIGNED,
    )
}

// The signers of the rows after row k, of n, that have its previous point.
fn owed_later(rows: &[u64], n: usize, k: usize) -> u64
    requires { (k < n) × (n * 11 ≤ length rows.now) }
    ensures { result ≡ owed_later rows.now n k }
{
    let mut peers: u64 = 0;
    for j in k + 1..n {
        if same_previous(rows, k, j) {
            let more = rows[j * ROW_WORDS + ROW_PEERS];
            peers = peers | more;
        }
    }
    peers
}

// The signers of row k that are reported by it: no trusted point of theirs, at the first m places, is a witness of its previous point, and
// no later row reports them for that.
fn exclude_witness(
    keys: &[u64],
    links: &[u64],
    places: &[usize],
    m: usize,
    live: bool,
    rows: &[u64],
    n: usize,
    k: usize,
) -> u64
    requires m_in_bounds { (m ≤ length places.now) × (k < n) × (n * 11 ≤ length rows.now) × (row_author rows.now k < 32) }
    requires by_index { (j : ℕ) → j < m → Placed keys.now links.now (get_or places.now j 0) }
    ensures { result ≡ excluded keys.now links.now places.now m live rows.now n k }
{
    let peers = rows[k * ROW_WORDS + ROW_PEERS];
    if peers == 0 {
        return 0;
    }
    let previous = rows[k * ROW_WORDS + ROW_PREVIOUS];
    if previous == 0 {
        return 0;
    }
    let seen = referring(keys, links, places, m, PEERS_MAX, live, rows, k);
    let later = owed_later(rows, n, k);
    without(without(peers, seen), later)
}

// The authors of the first n rows.
fn row_authors(rows: &[u64], n: usize) -> u64
    requires n_in_bounds { n * 11 ≤ length rows.now }
    requires by_index { (k : ℕ) → k < n → row_author rows.now k < 32 }
    ensures { result ≡ row_authors rows.now n }
{
    let mut peers: u64 = 0;
    for k in 0..n {
        peers = with_peer(peers, rows[k * ROW_WORDS + ROW_AUTHOR]);
    }
    peers
}

// The authors of the points at the first m places.
fn place_authors(keys: &[u64], places: &[usize], m: usize) -> u64
    requires m_in_bounds { m ≤ length places.now }
    requires by_index { (j : ℕ) → j < m → (get_or places.now j 0 * 8 + 8 ≤ length keys.now) × (author_at keys.now (get_or places.now j 0) < 32) }
    ensures { result ≡ place_authors keys.now places.now m }
{
    let mut peers: u64 = 0;
    for &q in &places[..m] {
        peers = with_peer(peers, models::place::author(keys, q));
    }
    peers
}

// The peers that made points at both rounds; none if the rows aren't of the round below (`adjacent`).
fn active(keys: &[u64], places: &[usize], m: usize, adjacent: bool, rows: &[u64], n: usize) -> u64
    requires m_in_bounds { (m ≤ length places.now) × (n * 11 ≤ length rows.now) }
    requires by_index { (j : ℕ) → j < m → (get_or places.now j 0 * 8 + 8 ≤ length keys.now) × (author_at keys.now (get_or places.now j 0) < 32) }
    requires by_index_2 { (k : ℕ) → k < n → row_author rows.now k < 32 }
    ensures { result ≡ active_of keys.now places.now m adjacent rows.now n }
{
    if !adjacent {
        return 0;
    }
    let then = row_authors(rows, n);
    let now = place_authors(keys, places, m);
    then & now
}

// The signers that are reported by the first n rows.
pub fn not_referenced(
    keys: &[u64],
    links: &[u64],
    places: &[usize],
    m: usize,
    live: bool,
    adjacent: bool,
    rows: &[u64],
    n: usize,
) -> NotReferenced
    requires m_in_bounds { (m ≤ length places.now) × (n ≤ 128) × (n * 11 ≤ length rows.now) }
    requires by_index { (j : ℕ) → j < m → Placed keys.now links.now (get_or places.now j 0) }
    requires by_index_2 { (k : ℕ) → k < n → row_author rows.now k < 32 }
    ensures { Cells (cell_of keys.now links.now places.now m live adjacent rows.now n) n result.sets result.signers }
{
    let both = active(keys, places, m, adjacent, rows, n);
    let mut sets: [u64; ROUND_POINTS_MAX] = [0; ROUND_POINTS_MAX];
    let mut signers: u64 = 0;
    for k in 0..n {
        let owed = exclude_witness(keys, links, places, m, live, rows, n, k) & both;
        sets[k] = owed;
        signers = signers | owed;
    }
    NotReferenced { sets, signers }
}

// By how many of the first n rows peer a is reported.
pub fn references_skipped(sets: &[u64], n: usize, a: u32) -> u16
    requires { (n ≤ length sets.now) × (n ≤ 128) × (a < 32) }
    ensures { result ≡ skipped_by sets.now n a }
{
    let found = sets[..n].iter().filter(|&&set| (set >> a) % 2 == 1).count();
    found as u16
}
