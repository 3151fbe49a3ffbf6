// Origin: dag/commit/inspector.rs (must_reference, PeerRoundData, last_round_data_map).
// The trusted points of a round as rows of 11 words, as `inspector_references` reads them: filled from the tables or from the state's
// memory, and written back as memory.
#![tactic(auto)]

ghost use Rattle.std.specs.Prelude.{◌≡◌, ℕ, ◌+◌, ◌*◌, ◌^◌, ◌<◌, ◌≤◌, length, get_or};
ghost use Rattle.models.specs.Ids.{Placed};
ghost use Rattle.inspector_references.specs.Referring.{row_author, row_peers};
ghost use Rattle.inspector_rows.specs.Rows.{words_from, row_from, RowsFit};
ghost use Rattle.inspector_rows.specs.Must.{point_row, unreferenced_of, must_row, must_rows};
ghost use Rattle.inspector_rows.specs.Memory.{one_if, entry_row, memory_rows, entry_from, memory_from};

use commit_state::state::{Entry, Memory, empty_memory};
use inspector_references::{referring, without};
use models::parts::{Digest, Round};
use models::tables::{
    DIGEST_WORDS, KEY_DIGEST, KEY_WORDS, LINK_DIGESTS, LINK_EVIDENCE, LINK_WORDS, ROW_AUTHOR,
    ROW_DIGEST, ROW_PEERS, ROW_PREVIOUS, ROW_SIGNED, ROW_WORDS,
};

// The four words from `at` on.
fn four_words(t: &[u64], at: usize) -> [u64; DIGEST_WORDS]
    requires { at + 4 ≤ length t.now }
    ensures { result ≡ words_from t.now at }
{
    let x = t[at + 0];
    let y = t[at + 1];
    let z = t[at + 2];
    let w = t[at + 3];
    [x, y, z, w]
}

// The row of these parts.
fn row_of(
    author: u64,
    digest: [u64; DIGEST_WORDS],
    previous: u64,
    signed: [u64; DIGEST_WORDS],
    peers: u64,
) -> [u64; ROW_WORDS]
    ensures { result ≡ row_from author digest previous signed peers }
{
    [
        author, digest[0], digest[1], digest[2], digest[3], previous, signed[0], signed[1],
        signed[2], signed[3], peers,
    ]
}

// The row of the point at place q, with the peers that signed its previous point, which is the include under its own author.
fn point_row(keys: &[u64], links: &[u64], q: usize) -> [u64; ROW_WORDS]
    requires { Placed keys.now links.now q }
    ensures { result ≡ point_row keys.now links.now q }
{
    let author = models::place::author(keys, q);
    let a = laws::slot(author);
    let digest = four_words(keys, q * KEY_WORDS + KEY_DIGEST);
    let previous = models::place::target(links, q, a);
    let signed = four_words(links, q * LINK_WORDS + LINK_DIGESTS + a * DIGEST_WORDS);
    let evidence = models::place::head_word(links, q, LINK_EVIDENCE);
    row_of(author, digest, previous, signed, evidence)
}

// Those of the row's peers that don't include its previous point, none without one: n places hold the trusted points of its round.
fn unreferenced_by(
    keys: &[u64],
    links: &[u64],
    places: &[usize],
    n: usize,
    live: bool,
    row: &[u64],
) -> u64
    requires n_in_bounds { (n ≤ length places.now) × (11 ≤ length row.now) × (get_or row.now 0 0 < 32) }
    requires by_index { (j : ℕ) → j < n → Placed keys.now links.now (get_or places.now j 0) }
    ensures { result ≡ unreferenced_of keys.now links.now places.now n live row.now }
{
    let previous = row[ROW_PREVIOUS];
    let signers = row[ROW_PEERS];
    if previous == 0 {
        return 0;
    }
    let by = referring(keys, links, places, n, 0, live, row, 0);
    without(signers, by)
}

// The row of the point at place q.
fn must_row(
    keys: &[u64],
    links: &[u64],
    places: &[usize],
    n: usize,
    live: bool,
    q: usize,
) -> [u64; ROW_WORDS]
    requires n_in_bounds { (n ≤ length places.now) × Placed keys.now links.now q }
    requires by_index { (j : ℕ) → j < n → Placed keys.now links.now (get_or places.now j 0) }
    ensures { result ≡ must_row keys.now links.now places.now n live q }
{
    let mut row = point_row(keys, links, q);
    let peers = unreferenced_by(keys, links, places, n, live, &row);
    row[ROW_PEERS] = peers;
    row
}

// The rows of the points at the first n places.
pub fn must_reference(
    keys: &[u64],
    links: &[u64],
    places: &[usize],
    n: usize,
    live: bool,
    rows: &mut [u64],
)
    requires n_in_bounds { (n ≤ length places.now) × (n * 11 ≤ length rows.old) }
    requires by_index { (j : ℕ) → j < n → Placed keys.now links.now (get_or places.now j 0) }
    ensures { rows.new ≡ must_rows keys.now links.now places.now n live rows.old }
{
    for (k, &q) in places[..n].iter().enumerate() {
        let row = must_row(keys, links, places, n, live, q);
        dag_round_keys::copy_words(rows, k * ROW_WORDS, &row, 0, ROW_WORDS);
    }
}

// The row of an entry.
fn entry_row(e: Entry) -> [u64; ROW_WORDS]
    ensures { result ≡ entry_row e }
{
    let digest = e.digest;
    let previous = e.previous;
    let d = digest.0;
    let p = previous.0;
    row_of(
        e.author as u64,
        d,
        e.has_previous as u64,
        p,
        e.unreferenced_by as u64,
    )
}

// The rows of a memory's entries.
pub fn rows_of(memory: Memory, rows: &mut [u64])
    requires { (memory.count ≤ 128) × (memory.count * 11 ≤ length rows.old) }
    ensures { rows.new ≡ memory_rows memory rows.old }
{
    for (k, &entry) in memory.entries[..memory.count].iter().enumerate() {
        let row = entry_row(entry);
        dag_round_keys::copy_words(rows, k * ROW_WORDS, &row, 0, ROW_WORDS);
    }
}

// 1 if it holds, else 0.
fn one_if(holds: bool) -> u32
    ensures { result ≡ one_if holds }
{
    u32::from(holds)
}

// Row k as an entry.
fn entry_of(rows: &[u64], k: usize) -> Entry
    requires { (k * 11 + 11 ≤ length rows.now) × (row_author rows.now k < 32) × (row_peers rows.now k < 2 ^ 32) }
    ensures { result ≡ entry_from rows.now k }
{
    let author = rows[k * ROW_WORDS + ROW_AUTHOR];
    let previous = rows[k * ROW_WORDS + ROW_PREVIOUS];
    let peers = rows[k * ROW_WORDS + ROW_PEERS];
    let digest = four_words(rows, k * ROW_WORDS + ROW_DIGEST);
    let signed = four_words(rows, k * ROW_WORDS + ROW_SIGNED);
    let has = one_if(0 < previous);
    Entry {
        author: author as u32,
        digest: Digest(digest),
        has_previous: has,
        previous: Digest(signed),
        unreferenced_by: peers as u32,
    }
}

// The first n rows as the memory of this round.
pub fn memory_of(last: Round, n: usize, rows: &[u64]) -> Memory
    requires n_bound { (n ≤ 128) × (n * 11 ≤ length rows.now) }
    requires rows_fit { RowsFit rows.now n }
    ensures { result ≡ memory_from last n rows.now }
{
    let empty = empty_memory();
    let mut entries = empty.entries;
    for k in 0..n {
        entries[k] = entry_of(rows, k);
    }
    Memory {
        last,
        count: n,
        entries,
    }
}
