// Origin: none.
// The point behind each point of a history (02: N7): "a point of the same history that links to it", of several "the one in the highest
// round, then with the lowest digest". One pass over the history's positions, downwards: rounds fall, and inside a round digests. So the
// first round that links to a point is the highest, and the last of that round has the lowest digest.
#![tactic(auto)]

ghost use Rattle.std.specs.Prelude.{◌≡◌, ◌+◌, ◌*◌, ◌-◌, ◌<◌, ◌≤◌, length};
ghost use Rattle.back_history.specs.Model.{Range};
ghost use Rattle.back_behind.specs.Model.{goes_before, note_at, note_links, note_down, sources, Sourced};

use back_history::is_uncommitted;
use models::parts::Round;
use models::place::{live_links, round_word, target};
use models::tables::{PLACES_MAX, PLACES_MAX_WORD};

// Whether place q is told rather than what is noted: nothing (0), or a place (plus 1) of q's round.
fn goes_before(keys: &[u64], noted: u16, q: usize) -> bool
    requires { (q * 8 + 8 ≤ length keys.now) × (noted * 8 ≤ length keys.now) }
    ensures { result ≡ goes_before keys.now noted q }
{
    match (noted as usize).checked_sub(1) {
        None => true,
        Some(p) => round_word(keys, p) == round_word(keys, q),
    }
}

// Notes place q for the place of a target word: 0 for no link, else the place plus 1.
fn note_link(by: &mut [u16; PLACES_MAX], keys: &[u64], q: usize, word: u64)
    requires { (q < 4096) × (q * 8 + 8 ≤ length keys.now) × Sourced (length keys.now) by.old }
    ensures { by.new ≡ note_at keys.now by.old q word }
{
    if word == 0 {
        return;
    }
    if word <= PLACES_MAX_WORD {
        let t = (word - 1) as usize;
        if goes_before(keys, by[t], q) {
            by[t] = (q + 1) as u16;
        }
    }
}

// Notes place q for the places that its first m links lead to.
fn note_links(by: &mut [u16; PLACES_MAX], keys: &[u64], links: &[u64], q: usize, m: usize)
    requires m_bound { (m ≤ 64) × (q * 328 + 328 ≤ length links.now) }
    requires q_bound { (q < 4096) × (q * 8 + 8 ≤ length keys.now) × Sourced (length keys.now) by.old }
    ensures { by.new ≡ note_links keys.now links.now by.old q m }
{
    for k in 0..m {
        note_link(by, keys, q, target(links, q, k));
    }
}

// From position `high` down to `low`: a place of the history is noted for the places that its live links lead to.
fn note_down(
    by: &mut [u16; PLACES_MAX],
    keys: &[u64],
    links: &[u64],
    certs: &[u64],
    order: &[u64],
    bottom: Round,
    low: usize,
    high: usize,
    marks: &[bool; PLACES_MAX],
)
    requires range { Range certs.now order.now low high }
    requires keys_len { (length keys.now ≡ length order.now * 8) × (length links.now ≡ length order.now * 328) × Sourced (length keys.now) by.old }
    ensures { (by.new ≡ note_down bottom.0 keys.now links.now certs.now order.now marks.now
        by.old high (high - low)) × Sourced (length keys.now) by.new }
{
    for p in (low..high).rev() {
        let q = dag_round_keys::place(order, high, p);
        if is_uncommitted(marks, certs, q) {
            note_links(by, keys, links, q, live_links(keys, bottom, q));
        }
    }
}

// For each place of the history, which `marks` and `certs` say in the positions from `low` to `high`, the place of the point that is told
// for it, plus 1; 0 where none links to it.
pub fn link_sources(
    keys: &[u64],
    links: &[u64],
    certs: &[u64],
    order: &[u64],
    bottom: Round,
    low: usize,
    high: usize,
    marks: &[bool; PLACES_MAX],
) -> [u16; PLACES_MAX]
    requires range { Range certs.now order.now low high }
    requires keys_len { (length keys.now ≡ length order.now * 8) × (length links.now ≡ length order.now * 328) }
    ensures { (result ≡ sources bottom.0 keys.now links.now certs.now order.now marks.now low high)
        × Sourced (length keys.now) result }
{
    let mut by = [0u16; PLACES_MAX];
    note_down(&mut by, keys, links, certs, order, bottom, low, high, marks);
    by
}
