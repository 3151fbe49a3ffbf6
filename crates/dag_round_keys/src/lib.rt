// Origin: dag/dag_round.rs (a round's points and their look-up), dag/commit/back.rs (drain_upto).
// A place has eight words of `keys`: round, author, four of the digest, status, marks. Its key is the round, then the digest. `order` holds
// the used places in its first n cells, sorted strictly by key. What is freed is zeroed, so that tables follow from the calls alone.
#![tactic(auto)]

ghost use Rattle.std.specs.Prelude.{◌≡◌, ◌+◌, ◌*◌, ◌<◌, ◌≤◌, ◌/◌, length, get_or, eqb, ltb};
ghost use Rattle.models.specs.Tables.{place_at, Inside};
ghost use Rattle.dag_round_keys.specs.Fill.{copied, zeroed};
ghost use Rattle.dag_round_keys.specs.Zero.{emptied};
ghost use Rattle.dag_round_keys.specs.Key.{key, before};
ghost use Rattle.dag_round_keys.specs.Sorted.{is_inside, Sorted, is_sorted, place_of, standing, point_at};
ghost use Rattle.dag_round_keys.specs.Id.{id_from};
ghost use Rattle.models.specs.Digest.{digest_at};

use models::place::author;
use models::tables::{DIGEST_WORDS, KEY_DIGEST, KEY_ROUND, KEY_WORDS};

pub mod look;

// The used place at position i of the order.
pub fn place(order: &[u64], n: usize, i: usize) -> usize
    requires i_lt_n { (i < n) × (n ≤ length order.now) }
    requires inside { Inside order.now n (length order.now) }
    ensures value { result ≡ place_at order.now i }
    ensures upper_bound { result < length order.now }
{
    laws::slot(order[i])
}

// Writes n words of `words`, from `from` on, into t at `at`.
pub fn copy_words(t: &mut [u64], at: usize, words: &[u64], from: usize, n: usize)
    requires { (at + n ≤ length t.old) × (from + n ≤ length words.now) }
    ensures { t.new ≡ copied t.old at words.now from n }
{
    // No `copy_from_slice`: it is C's `memmove`, and the library needs `memcpy` and `memset` of a host and no more.
    for i in 0..n {
        t[at + i] = words[from + i];
    }
}

// Zeroes n words from `from` on.
pub fn zero_words(t: &mut [u64], from: usize, n: usize)
    requires { from + n ≤ length t.old }
    ensures { t.new ≡ zeroed t.old from n }
{
    t[from..from + n].fill(0);
}

// Zeroes the places in the first k cells of the order, in a table of `width` words a place.
pub fn zero_places(t: &mut [u64], width: usize, order: &[u64], k: usize)
    requires k_in_bounds { (k ≤ length order.now) × (length t.old ≡ length order.now * width) }
    requires inside { Inside order.now k (length order.now) }
    ensures { t.new ≡ emptied t.old width order.now k }
{
    for &cell in &order[..k] {
        zero_words(t, laws::slot(cell) * width, width);
    }
}

// Whether the digest in the four words of a from i on is the one in those of b from j on.
pub fn same_digest(a: &[u64], i: usize, b: &[u64], j: usize) -> bool
    requires { (i + 4 ≤ length a.now) × (j + 4 ≤ length b.now) }
    ensures { result ≡ eqb (digest_at a.now i) (digest_at b.now j) }
{
    a[i..i + DIGEST_WORDS] == b[j..j + DIGEST_WORDS]
}

// The id with this round and author and the digest in the four words from `at` on, as the words of a place.
pub fn id_at(t: &[u64], at: usize, round: u64, author: u64) -> [u64; KEY_WORDS]
    requires { at + 4 ≤ length t.now }
    ensures { result ≡ id_from t.now at round author }
{
    let x = t[at + 0];
    let y = t[at + 1];
    let z = t[at + 2];
    let w = t[at + 3];
    [round, author, x, y, z, w, 0, 0]
}

// Whether the digest in the four words of a from i on is lower than the one in those of b from j on.
pub fn digest_less(a: &[u64], i: usize, b: &[u64], j: usize) -> bool
    requires { (i + 4 ≤ length a.now) × (j + 4 ≤ length b.now) }
    ensures { result ≡ ltb (digest_at a.now i) (digest_at b.now j) }
{
    &a[i..i + DIGEST_WORDS] < &b[j..j + DIGEST_WORDS]
}

// Whether place i of table a comes before place j of table b.
pub fn less(a: &[u64], i: usize, b: &[u64], j: usize) -> bool
    requires { (i * 8 + 8 ≤ length a.now) × (j * 8 + 8 ≤ length b.now) }
    ensures { result ≡ before (key a.now i) (key b.now j) }
{
    let x = i * KEY_WORDS;
    let y = j * KEY_WORDS;
    let u = a[x + KEY_ROUND];
    let v = b[y + KEY_ROUND];
    u < v || (u == v && digest_less(a, x + KEY_DIGEST, b, y + KEY_DIGEST))
}

// Whether the first n cells hold places below `places`.
pub fn inside(order: &[u64], n: usize, places: usize) -> bool
    requires { n ≤ length order.now }
    ensures { result ≡ is_inside order.now n places }
{
    order[..n].iter().all(|&cell| laws::slot(cell) < places)
}

// Whether the keys rise strictly over the first n cells.
pub fn sorted(keys: &[u64], order: &[u64], n: usize) -> bool
    requires { (n ≤ length order.now) × Inside order.now n (length keys.now / 8) }
    ensures { result ≡ is_sorted keys.now order.now n }
{
    (1..n).all(|k| less(keys, laws::slot(order[k - 1]), keys, laws::slot(order[k])))
}

// The first position whose key does not come before the id's, or n: where the id stands or is to be put.
pub fn seek(keys: &[u64], order: &[u64], n: usize, id: &[u64]) -> usize
    requires n_in_bounds { (n ≤ length order.now) × ((8 ≤ length id.now) × Inside order.now n (length keys.now / 8)) }
    requires sorted { Sorted keys.now order.now n }
    ensures { result ≡ place_of keys.now order.now n (key id.now 0) }
{
    let mut lo = 0;
    let mut hi = n;
    // `partition_point` may ask its closure of any word, and `less` asks for a place of the table.
    while lo < hi {
        let mid = lo + (hi - lo) / 2;
        let i = laws::slot(order[mid]);
        if less(keys, i, id, 0) {
            lo = mid + 1;
        } else {
            hi = mid;
        }
    }
    lo
}

// The position of the id's key, or n.
pub fn find(keys: &[u64], order: &[u64], n: usize, id: &[u64]) -> usize
    requires n_in_bounds { (n ≤ length order.now) × ((8 ≤ length id.now) × Inside order.now n (length keys.now / 8)) }
    requires sorted { Sorted keys.now order.now n }
    ensures { result ≡ standing keys.now order.now n (key id.now 0) }
{
    let p = seek(keys, order, n, id);
    if p < n {
        let i = laws::slot(order[p]);
        if !less(id, 0, keys, i) {
            return p;
        }
    }
    n
}

// The position of the id's key, if the author there is the id's too, or n.
pub fn find_point(keys: &[u64], order: &[u64], n: usize, id: &[u64]) -> usize
    requires n_in_bounds { (n ≤ length order.now) × ((8 ≤ length id.now) × Inside order.now n (length keys.now / 8)) }
    requires sorted { Sorted keys.now order.now n }
    ensures { result ≡ point_at keys.now order.now n (key id.now 0) (get_or id.now 1 0) }
{
    let at = find(keys, order, n, id);
    if at < n {
        let i = laws::slot(order[at]);
        if author(keys, i) == id[1] {
            return at;
        }
    }
    n
}
