// Origin: dag/commit/inspector.rs (must_reference, exclude_witness).
// The trusted points of a round, and which of their authors refer to a digest, by includes or by witness.
// A row has 11 words: author, digest (four), previous, previous digest (four), the peers that signed the previous point and did not include
// it. Previous is 0 without a previous point; of a row made from a place it is the target word of the link to that point.
#![tactic(auto)]

ghost use Rattle.std.specs.Prelude.{◌≡◌, ℕ, ◌+◌, ◌*◌, ◌-◌, ◌<◌, ◌≤◌, length, get_or};
ghost use Rattle.laws.specs.Peers.{with_peer};
ghost use Rattle.models.specs.Digest.{digest_at};
ghost use Rattle.back_history.specs.Model.{Range};
ghost use Rattle.models.specs.Ids.{Placed};
ghost use Rattle.inspector_references.specs.Sets.{without};
ghost use Rattle.inspector_references.specs.Trusted.{Listed, trusted_in};
ghost use Rattle.inspector_references.specs.Refs.{refers_by, refers_at};
ghost use Rattle.inspector_references.specs.Referring.{RowIn, refers_row, referring_by};

use commit_state::dag::Dag;
use inspector_counters::tests::version_at;
use models::place::target;
use models::tables::{
    DIGEST_WORDS, LINK_DIGESTS, LINK_WORDS, PEERS_MAX, ROUND_POINTS_MAX, ROW_AUTHOR, ROW_PREVIOUS,
    ROW_SIGNED, ROW_WORDS,
};

// The places of a round's trusted points, by rising digest.
#[derive(Clone, Copy)]
pub struct Trusted {
    pub count: usize,
    pub places: [usize; ROUND_POINTS_MAX],
}

// Those of the points at positions `low` to `high`.
pub fn trusted_places(dag: &Dag, low: usize, high: usize) -> Trusted
    requires range { Range dag.now.certs.now dag.now.order.now low high }
    requires keys_len { (length dag.now.keys.now ≡ length dag.now.order.now * 8) × (high - low ≤ 128) }
    ensures { Listed result.places result.count (trusted_in dag.now.keys.now dag.now.certs.now dag.now.order.now low (high - low)) }
{
    let mut places: [usize; ROUND_POINTS_MAX] = [0; ROUND_POINTS_MAX];
    let mut count: usize = 0;
    for &point in &dag.order[low..high] {
        let q = laws::slot(point);
        let version = version_at(dag.keys, dag.certs, q);
        let passed = version.inspect();
        if passed.trusted {
            places[count] = q;
            count += 1;
        }
    }
    Trusted { count, places }
}

// Whether link k of place q is one to the digest in the four words from p on.
fn refers_by(links: &[u64], q: usize, k: usize, words: &[u64], p: usize) -> bool
    requires { (q * 328 + 328 ≤ length links.now) × (k < 64) × (p + 4 ≤ length words.now) }
    ensures { result ≡ refers_by links.now q (digest_at words.now p) k }
{
    if target(links, q, k) == 0 {
        return false;
    }
    dag_round_keys::same_digest(
        links,
        q * LINK_WORDS + LINK_DIGESTS + k * DIGEST_WORDS,
        words,
        p,
    )
}

// Whether one of the 32 links of place q from `first` on (0 for includes, 32 for witness) is one to that digest.
fn refers(links: &[u64], q: usize, first: usize, words: &[u64], p: usize) -> bool
    requires { (q * 328 + 328 ≤ length links.now) × (first ≤ 32) × (p + 4 ≤ length words.now) }
    ensures { result ≡ refers_at links.now q first (digest_at words.now p) }
{
    (0..PEERS_MAX).any(|k| refers_by(links, q, first + k, words, p))
}

// Whether the point at place q refers to the previous point of row k, by those links. If they lead into a retained round (`live`), then by
// the target word alone.
fn refers_row(links: &[u64], q: usize, first: usize, live: bool, rows: &[u64], k: usize) -> bool
    requires { (q * 328 + 328 ≤ length links.now) × (first ≤ 32) × RowIn rows.now k }
    ensures { result ≡ refers_row links.now q first live rows.now k }
{
    if live {
        let author = laws::slot(rows[k * ROW_WORDS + ROW_AUTHOR]);
        let previous = rows[k * ROW_WORDS + ROW_PREVIOUS];
        return target(links, q, first + author) == previous;
    }
    refers(links, q, first, rows, k * ROW_WORDS + ROW_SIGNED)
}

// The set with one peer more.
pub fn with_peer(peers: u64, peer: u64) -> u64
    requires { peer < 32 }
    ensures { result ≡ with_peer peers peer }
{
    peers | (1 << peer as u32)
}

// Those of the first set that aren't in the second.
pub fn without(x: u64, y: u64) -> u64
    ensures { result ≡ without x y }
{
    x ^ (x & y)
}

// The authors of those of the first n places that do.
pub fn referring(
    keys: &[u64],
    links: &[u64],
    places: &[usize],
    n: usize,
    first: usize,
    live: bool,
    rows: &[u64],
    k: usize,
) -> u64
    requires n_in_bounds { (n ≤ length places.now) × (first ≤ 32) × RowIn rows.now k }
    requires by_index { (j : ℕ) → j < n → Placed keys.now links.now (get_or places.now j 0) }
    ensures { result ≡ referring_by keys.now links.now places.now n first live rows.now k }
{
    let mut peers: u64 = 0;
    for &q in &places[..n] {
        if refers_row(links, q, first, live, rows, k) {
            peers = with_peer(peers, models::place::author(keys, q));
        }
    }
    peers
}
