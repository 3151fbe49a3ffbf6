// Origin: dag/commit/back.rs (gather_uncommitted).
// The history of one anchor: the points that it needs, by one sweep over the positions of the order downwards, and those of them that
// are not committed, by rising position. An outlook supposes that older anchors have been committed, without a mark in the tables: the
// places `taken` by them count as committed. A commit has no such place.
#![tactic(auto)]

ghost use Rattle.std.specs.Prelude.{◌≡◌, ◌+◌, ◌*◌, ◌-◌, ◌<◌, ◌≤◌, length};
ghost use Rattle.laws.specs.Scan.{any, those};
ghost use Rattle.back_history.specs.Model.{limit_of, missing, put, marked, is_uncommitted, swept, marks, Range};
ghost use Rattle.back_history.specs.Supposing.{supposing};
ghost use Rattle.back_history.specs.Picked.{uncommitted_at, uncertified_at};

use commit_state::dag::Dag;
use models::cert::Cert;
use models::parts::Round;
use models::place::target;
use models::tables::{PLACES_MAX, PLACES_MAX_WORD};

// The lowest round of the history of an anchor: H rounds below it, above genesis.
pub fn history_limit(genesis: Round, rounds: u32, anchor: Round) -> Round
    requires { genesis.0 ≤ 4000000000 }
    ensures { result.0 ≡ limit_of genesis.0 rounds anchor.0 }
{
    let least = genesis.plus(1);
    let low = anchor.minus(rounds);
    least.max(low)
}

// Whether rounds of a history with this limit are missing that should be there.
pub fn rounds_missing(full: Round, limit: Round, bottom: Round) -> bool
    ensures { result ≡ missing full.0 limit.0 bottom.0 }
{
    if limit.0 < full.0 {
        return false;
    }
    limit.0 < bottom.0
}

// Marks the place of a target word: 0 for no link, else the place plus 1.
fn mark_target(marks: &mut [bool; PLACES_MAX], word: u64)
    ensures { marks.new ≡ put marks.old word }
{
    if word == 0 {
        return;
    }
    if word <= PLACES_MAX_WORD {
        marks[(word - 1) as usize] = true;
    }
}

// Marks the places that the first m links of place q lead to.
fn mark_links(marks: &mut [bool; PLACES_MAX], links: &[u64], q: usize, m: usize)
    requires { (m ≤ 64) × (q * 328 + 328 ≤ length links.now) }
    ensures { marks.new ≡ marked links.now marks.old q m }
{
    for k in 0..m {
        mark_target(marks, target(links, q, k));
    }
}

// Whether place q is marked and not committed.
pub fn is_uncommitted(marks: &[bool; PLACES_MAX], certs: &[u64], q: usize) -> bool
    requires { (q < 4096) × (q < length certs.now) }
    ensures { result ≡ is_uncommitted certs.now marks.now q }
{
    if marks[q] {
        let cert = Cert(certs[q]);
        return !cert.is_committed();
    }
    false
}

// Whether place q is marked, and neither committed nor taken.
pub fn is_fresh(
    marks: &[bool; PLACES_MAX],
    certs: &[u64],
    taken: &[bool; PLACES_MAX],
    q: usize,
) -> bool
    requires { (q < 4096) × (q < length certs.now) }
    ensures { result ≡ is_uncommitted (supposing taken.now certs.now) marks.now q }
{
    if taken[q] {
        return false;
    }
    is_uncommitted(marks, certs, q)
}

// From position `high` down to `low`: a marked place that is neither committed nor taken marks the places that its live links lead to.
fn sweep(
    marks: &mut [bool; PLACES_MAX],
    keys: &[u64],
    links: &[u64],
    certs: &[u64],
    taken: &[bool; PLACES_MAX],
    order: &[u64],
    bottom: Round,
    low: usize,
    high: usize,
)
    requires range { Range certs.now order.now low high }
    requires keys_len { (length keys.now ≡ length order.now * 8) × (length links.now ≡ length order.now * 328) }
    ensures { marks.new ≡ swept bottom.0 keys.now links.now
        (supposing taken.now certs.now) order.now marks.old high (high - low) }
{
    for p in (low..high).rev() {
        let q = dag_round_keys::place(order, high, p);
        if is_fresh(marks, certs, taken, q) {
            mark_links(marks, links, q, models::place::live_links(keys, bottom, q));
        }
    }
}

// The places that the anchor needs, of the positions from `low` to `high`; those committed or taken hand on no links.
pub fn gather_uncommitted(
    keys: &[u64],
    links: &[u64],
    certs: &[u64],
    taken: &[bool; PLACES_MAX],
    order: &[u64],
    bottom: Round,
    low: usize,
    high: usize,
    anchor: usize,
) -> [bool; PLACES_MAX]
    requires range { Range certs.now order.now low high }
    requires keys_len { (length keys.now ≡ length order.now * 8) × (length links.now ≡ length order.now * 328) × (anchor < length order.now) }
    ensures { result ≡ marks bottom.0 keys.now links.now (supposing taken.now certs.now) order.now low high anchor }
{
    let mut marks = [false; PLACES_MAX];
    marks[anchor] = true;
    sweep(
        &mut marks, keys, links, certs, taken, order, bottom, low, high,
    );
    marks
}

// Whether a point of the history has the height 0.
pub fn any_uncertified(
    marks: &[bool; PLACES_MAX],
    dag: &Dag,
    taken: &[bool; PLACES_MAX],
    low: usize,
    high: usize,
) -> bool
    requires { Range dag.now.certs.now dag.now.order.now low high }
    ensures { result ≡ any (high - low) (uncertified_at (supposing taken.now dag.now.certs.now) dag.now.order.now marks.now low) }
{
    dag.order[low..high].iter().any(|&word| {
        let q = laws::slot(word);
        is_fresh(marks, dag.certs, taken, q) && !Cert(dag.certs[q]).is_certified()
    })
}

// How many points the history has.
pub fn count_points(
    marks: &[bool; PLACES_MAX],
    dag: &Dag,
    taken: &[bool; PLACES_MAX],
    low: usize,
    high: usize,
) -> usize
    requires { Range dag.now.certs.now dag.now.order.now low high }
    ensures { result ≡ length (those (high - low) (uncommitted_at (supposing taken.now dag.now.certs.now) dag.now.order.now marks.now low)) }
{
    dag.order[low..high]
        .iter()
        .filter(|&&word| is_fresh(marks, dag.certs, taken, laws::slot(word)))
        .count()
}
