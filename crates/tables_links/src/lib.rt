// Origin: none.
// The stored links and words of the used places.
#![tactic(auto)]

ghost use Rattle.std.specs.Prelude.{◌≡◌, ℕ, ◌+◌, ◌*◌, ◌-◌, ◌/◌, ◌%◌, ◌<◌, ◌≤◌, length};
ghost use Rattle.tables_links.specs.Links.{fits, link_right, links_right};
ghost use Rattle.tables_links.specs.Bare.{empty_from, bare_at};
ghost use Rattle.tables_links.specs.Words.{point_in_range, resolution_in_range, told_fits, words_at};
ghost use Rattle.models.specs.Live.{reach};
ghost use Rattle.models.specs.Tables.{round_at, dist};

use laws::{and, or};
use models::cert::{CERT_MAX, Cert};
use models::parts::Round;
use models::place::{author, head_word, round_word, target};
use models::tables::{
    DIGEST_WORDS, KEY_DIGEST, KEY_WORDS, LINK_DIGESTS, LINK_WORDS, LINKS_MAX, PEER_SLOTS_WORD,
    PEERS_MAX,
};

// Whether place p has the round, the author and the digest that link k of place q says.
fn fits_link(keys: &[u64], links: &[u64], q: usize, k: usize, p: usize) -> bool
    requires { (p * 8 + 8 ≤ length keys.now) × (q * 8 + 8 ≤ length keys.now) × (q * 328 + 328 ≤ length links.now) × (k < 64) × (dist k ≤ round_at keys.now q) }
    ensures { result ≡ fits keys.now links.now q k p }
{
    let d = (1 + k / PEERS_MAX) as u64;
    if round_word(keys, p) != round_word(keys, q) - d {
        return false;
    }
    let peer = (k % PEERS_MAX) as u64;
    if author(keys, p) != peer {
        return false;
    }
    dag_round_keys::same_digest(
        keys,
        p * KEY_WORDS + KEY_DIGEST,
        links,
        q * LINK_WORDS + LINK_DIGESTS + k * DIGEST_WORDS,
    )
}

// Whether link k of place q is none, or leads to the used place that it says.
fn link_right(
    keys: &[u64],
    links: &[u64],
    marks: &[bool],
    places: usize,
    q: usize,
    k: usize,
) -> bool
    requires { (places ≤ length marks.now) × (length keys.now ≡ places * 8) × (length links.now ≡ places * 328) × (q < places) × (k < 64) × (dist k ≤ round_at keys.now q) }
    ensures { result ≡ link_right keys.now links.now marks.now places q k }
{
    let a = target(links, q, k);
    if a == 0 {
        return true;
    }
    let p = laws::slot(a - 1);
    if places <= p {
        return false;
    }
    if !marks[p] {
        return false;
    }
    fits_link(keys, links, q, k, p)
}

// The first m links of place q, all live. A function of its own as built too: inlined into the table test, its loop reads the tables' addresses
// from the stack at every link.
#[inline(never)]
fn links_right(
    keys: &[u64],
    links: &[u64],
    marks: &[bool],
    places: usize,
    q: usize,
    m: usize,
) -> bool
    requires places_in_bounds { (places ≤ length marks.now) × (length keys.now ≡ places * 8) × (length links.now ≡ places * 328) × (q < places) × (m ≤ 64) }
    requires by_index { (k : ℕ) → k < m → dist k ≤ round_at keys.now q }
    ensures { result ≡ links_right keys.now links.now marks.now places q m }
{
    (0..m).all(|k| link_right(keys, links, marks, places, q, k))
}

// Whether every live link of place q leads to the used place that it says.
pub fn live_right(
    keys: &[u64],
    links: &[u64],
    marks: &[bool],
    places: usize,
    q: usize,
    bottom: Round,
) -> bool
    requires { (places ≤ length marks.now) × (length keys.now ≡ places * 8) × (length links.now ≡ places * 328) × (q < places) }
    ensures { result ≡ links_right keys.now links.now marks.now places q (reach bottom.0 keys.now q) }
{
    let m = models::place::live_links(keys, bottom, q);
    links_right(keys, links, marks, places, q, m)
}

// Whether place q has no link from m on.
fn empty_from(links: &[u64], q: usize, m: usize) -> bool
    requires { (q * 328 + 328 ≤ length links.now) × (m ≤ 64) }
    ensures { result ≡ empty_from links.now q m }
{
    (m..LINKS_MAX).all(|k| target(links, q, k) == 0)
}

// Whether place q has no link and no evidence that must not be: any of an ill-formed or missing point, links into rounds below 0. A point
// that is named only may hold anything.
pub fn bare_one(keys: &[u64], links: &[u64], q: usize) -> bool
    requires { (q * 8 + 8 ≤ length keys.now) × (q * 328 + 328 ≤ length links.now) }
    ensures { result ≡ bare_at keys.now links.now q }
{
    let case = models::place::case_at(keys, q);
    match case {
        Some(p) => {
            if p.has_info() {
                return empty_from(links, q, models::place::live_links(keys, Round(0), q));
            }
            and(head_word(links, q, 0) == 0, empty_from(links, q, 0))
        }
        None => true,
    }
}

// The status s, the marks m and the author a of a used place, with its certificate word.
fn point_in_range(s: u64, m: u64, a: u64, cert: Cert) -> bool
    ensures { result ≡ point_in_range s m a cert.0 }
{
    let committed = or(cert.is_certified(), !cert.is_committed());
    and(
        s <= 5,
        and(
            m < 8,
            and(a < PEER_SLOTS_WORD, and(cert.0 <= CERT_MAX, committed)),
        ),
    )
}

// The evidence e of a resolved point, and the round r and the author a of its top proof.
fn resolution_in_range(e: u64, r: u64, a: u64) -> bool
    ensures { result ≡ resolution_in_range e r a }
{
    and(e < 4294967296, and(r < 4294967296, a < PEER_SLOTS_WORD))
}

// The evidence and the top proof of place q, if its point is resolved.
fn told_fits(keys: &[u64], links: &[u64], q: usize) -> bool
    requires { (q * 8 + 8 ≤ length keys.now) × (q * 328 + 328 ≤ length links.now) }
    ensures { result ≡ told_fits keys.now links.now q }
{
    let case = models::place::case_at(keys, q);
    match case {
        Some(_) => {
            let e = head_word(links, q, 0);
            let r = head_word(links, q, 1);
            let a = head_word(links, q, 2);
            resolution_in_range(e, r, a)
        }
        None => true,
    }
}

// Whether the words of place q are in their ranges.
pub fn words_one(keys: &[u64], links: &[u64], certs: &[u64], q: usize) -> bool
    requires { (q * 8 + 8 ≤ length keys.now) × (q * 328 + 328 ≤ length links.now) × (q < length certs.now) }
    ensures { result ≡ words_at keys.now links.now certs.now q }
{
    let s = models::place::status(keys, q);
    let m = models::place::marks_at(keys, q);
    let a = author(keys, q);
    let cert = Cert(certs[q]);
    and(point_in_range(s, m, a, cert), told_fits(keys, links, q))
}
