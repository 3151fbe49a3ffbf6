// Origin: none.
// Whether the tables count as started: document 01, 'Forms of the Rust', first point. The Rust has no tables to test.
#![tactic(auto)]

ghost use Rattle.std.specs.Prelude.{◌≡◌, ◌*◌, ◌<◌, ◌≤◌, length, eqb};
ghost use Rattle.models.specs.Tables.{Inside};
ghost use Rattle.spec.specs.Rules.{places_ok};
ghost use Rattle.commit_state.specs.Numbers.{rounds_hold};
ghost use Rattle.spec.specs.Rules.{counts_as_started};
ghost use Rattle.tables_test.specs.View.{view_of};
ghost use Rattle.tables_test.specs.Model.{shape, state_holds, order_holds, place_ok, each_ok, used_ok, points_hold, tested};

use commit_state::dag::Dag;
use commit_state::state::State;
use models::parts::Round;
use models::tables::{KEY_WORDS, LINK_WORDS, PLACES_MAX, ROUND_SLOTS_WORD};

// Whether a table of this many words has n places of `width` words. The product may not fit, so the words are divided.
fn has_places(words: usize, n: usize, width: usize) -> bool
    requires { 0 < width }
    ensures { result ≡ eqb words (n * width) }
{
    if words % width != 0 {
        return false;
    }
    words / width == n
}

// Whether the tables have room for the same number of places.
pub fn shape_holds(keys: &[u64], links: &[u64], certs: &[u64], order: &[u64]) -> bool
    ensures { result ≡ shape keys.now links.now certs.now order.now }
{
    let n = order.len();
    if !has_places(keys.len(), n, KEY_WORDS) {
        return false;
    }
    if !has_places(links.len(), n, LINK_WORDS) {
        return false;
    }
    certs.len() == n
}

// Start's range of the number of places.
pub fn places_hold(places: usize) -> bool
    ensures { result ≡ places_ok places }
{
    if places == 0 {
        return false;
    }
    places <= PLACES_MAX
}

// Whether the retained rounds lie in their ranges and their used marks are authors. The range is tested first: within it the number of
// rounds is small, and no sum of rounds overflows.
fn rounds_hold(s: &State) -> bool
    ensures { result ≡ rounds_hold s.now }
{
    let genesis = s.genesis;
    let bottom = s.bottom;
    let top = s.top;
    if !commit_state::state::range_holds(genesis, bottom, top) {
        return false;
    }
    let b = bottom.0;
    let t = top.0;
    commit_state::state::used_hold(s, t - b + 1)
}

// Whether the state is started, its numbers lie in their ranges and the inspector's memory holds.
fn state_holds(s: &State, places: usize) -> bool
    ensures { result ≡ state_holds s.now places }
{
    if s.phase != 1 {
        return false;
    }
    if !places_hold(places) {
        return false;
    }
    if !commit_state::state::conf_holds(s.commit_history_rounds, s.deduplicate_rounds) {
        return false;
    }
    if !rounds_hold(s) {
        return false;
    }
    if places < s.count {
        return false;
    }
    commit_state::state::memory_holds(&s.memory)
}

// Whether the order holds places, sorted by their keys, at most four to an author and a round. That it holds places is tested first: the
// other tests read at them.
fn order_holds(dag: &Dag) -> bool
    requires { (length dag.now.keys.now ≡ length dag.now.order.now * 8) × (dag.now.state.now.count ≤ length dag.now.order.now) }
    ensures { result ≡ order_holds dag.now.state.now dag.now.keys.now dag.now.order.now }
{
    let n = dag.state.count;
    if !dag_round_keys::inside(dag.order, n, dag.order.len()) {
        return false;
    }
    if !dag_round_keys::sorted(dag.keys, dag.order, n) {
        return false;
    }
    tables_ids::versions_hold(dag.keys, dag.order, n)
}

// Whether place q holds what a used place may hold: its id, its links and the words beside them. marks: the used places; peers: those of
// its round.
fn place_ok(
    keys: &[u64],
    links: &[u64],
    certs: &[u64],
    marks: &[bool],
    places: usize,
    q: usize,
    bottom: Round,
    top: Round,
    peers: u32,
) -> bool
    requires { (places ≤ length marks.now) × (length keys.now ≡ places * 8) × (length links.now ≡ places * 328) × (length certs.now ≡ places) × (q < places) }
    ensures { result ≡ place_ok bottom.0 top.0 peers keys.now links.now certs.now marks.now places q }
{
    let round = models::place::round_word(keys, q);
    let author = models::place::author(keys, q);
    if !tables_ids::id_holds(round, author, bottom, top, peers) {
        return false;
    }
    if !tables_links::live_right(keys, links, marks, places, q, bottom) {
        return false;
    }
    if !tables_links::bare_one(keys, links, q) {
        return false;
    }
    tables_links::words_one(keys, links, certs, q)
}

// Whether every used place does.
fn each_ok(dag: &Dag, marks: &[bool]) -> bool
    requires order_in_bounds { (length dag.now.order.now ≤ length marks.now) × (length dag.now.keys.now ≡ length dag.now.order.now * 8) × (length dag.now.links.now ≡ length dag.now.order.now * 328) ×
        (length dag.now.certs.now ≡ length dag.now.order.now) × (dag.now.state.now.count ≤ length dag.now.order.now) }
    requires inside { Inside dag.now.order.now dag.now.state.now.count (length dag.now.order.now) }
    ensures { result ≡ each_ok dag.now.state.now dag.now.keys.now dag.now.links.now dag.now.certs.now marks.now dag.now.order.now }
{
    let n = dag.state.count;
    let places = dag.order.len();
    let bottom = dag.state.bottom;
    let top = dag.state.top;
    for &cell in &dag.order[..n] {
        let q = laws::slot(cell);
        let round = models::place::round_word(dag.keys, q);
        let x = dag.state.rounds[(round % ROUND_SLOTS_WORD) as usize];
        if !place_ok(
            dag.keys, dag.links, dag.certs, marks, places, q, bottom, top, x.peers,
        ) {
            return false;
        }
    }
    true
}

// The same, with the used places marked here.
fn used_ok(dag: &Dag) -> bool
    requires order_len_bound { (length dag.now.order.now ≤ 4096) × (length dag.now.keys.now ≡ length dag.now.order.now * 8) × (length dag.now.links.now ≡ length dag.now.order.now * 328) ×
        (length dag.now.certs.now ≡ length dag.now.order.now) × (dag.now.state.now.count ≤ length dag.now.order.now) }
    requires inside { Inside dag.now.order.now dag.now.state.now.count (length dag.now.order.now) }
    ensures { result ≡ used_ok dag.now.state.now dag.now.keys.now dag.now.links.now dag.now.certs.now dag.now.order.now }
{
    let mut marks = [false; PLACES_MAX];
    dag_round_order::mark(&mut marks, dag.order, dag.state.count);
    each_ok(dag, &marks)
}

// Whether the used places hold what they may hold, and their heights are right.
fn points_hold(dag: &Dag) -> bool
    requires order_len_bound { (length dag.now.order.now ≤ 4096) × (length dag.now.keys.now ≡ length dag.now.order.now * 8) × (length dag.now.links.now ≡ length dag.now.order.now * 328) ×
        (length dag.now.certs.now ≡ length dag.now.order.now) × (dag.now.state.now.count ≤ length dag.now.order.now) × (dag.now.state.now.commit_history_rounds ≤ 255) }
    requires inside { Inside dag.now.order.now dag.now.state.now.count (length dag.now.order.now) }
    ensures { result ≡ points_hold dag.now.state.now dag.now.keys.now dag.now.links.now dag.now.certs.now dag.now.order.now }
{
    if !used_ok(dag) {
        return false;
    }
    let bottom = dag.state.bottom;
    let top = dag.state.top_height();
    tables_heights::heights_hold(
        dag.keys,
        dag.links,
        dag.certs,
        dag.order,
        dag.state.count,
        bottom,
        top,
    )
}

// All tests. Each relies on those before it, so that any state and any tables may be given.
fn all_hold(dag: &Dag) -> bool
    ensures { result ≡ tested dag.now.state.now dag.now.keys.now dag.now.links.now dag.now.certs.now dag.now.order.now }
{
    if !shape_holds(dag.keys, dag.links, dag.certs, dag.order) {
        return false;
    }
    if !state_holds(dag.state, dag.order.len()) {
        return false;
    }
    if !order_holds(dag) {
        return false;
    }
    points_hold(dag)
}

// Whether the state and the tables count as started.
pub fn counts_as_started(dag: &Dag) -> bool
    ensures { result ≡ counts_as_started (view_of dag.now) }
{
    all_hold(dag)
}
