// Origin: dag/commit/back.rs (gather_uncommitted).
// The tests of one anchor that commit and outlook both make, with what its history is. Places that are `taken` count as committed.
ghost use Rattle.std.specs.Prelude.{◌≡◌, ◌*◌, ◌≤◌, length};
ghost use Rattle.spec.specs.Chain.{good};
ghost use Rattle.spec.specs.History.{tested};
ghost use Rattle.models.specs.Refusal.{unless_failed};
ghost use Rattle.models.specs.Tables.{Used};
ghost use Rattle.tables_test.specs.View.{view_of};
ghost use Rattle.tables_test.specs.Refines.{Started};
ghost use Rattle.dag_round_points.specs.Model.{Ready};
ghost use Rattle.back_history.specs.Model.{Range};
ghost use Rattle.back_history.specs.Supposing.{supposing};
ghost use Rattle.back_committable.specs.ModelPoints.{Rounds};
ghost use Rattle.back_committable.specs.Model.{history_span, code_of, gathered_of, tested_of};

use crate::fault::history_fault;
use back_history::{
    any_uncertified, count_points, gather_uncommitted, history_limit, rounds_missing,
};
use commit_state::dag::Dag;
use models::parts::Round;
use models::place::round_at;
use models::refusal::{AT_GENESIS, NOT_CERTIFIED, ROUNDS_MISSING, Refusal};
use models::tables::PLACES_MAX;

// The positions of a history, from `low` to `high`, its limit and its lowest round.
#[derive(Clone, Copy)]
pub struct HistorySpan {
    pub limit: Round,
    pub lowest: Round,
    pub low: usize,
    pub high: usize,
}

// The history of an anchor: the marked places that are neither committed nor taken, of the positions of its span, and their number.
#[derive(Clone, Copy)]
pub struct Gathered {
    pub span: HistorySpan,
    pub count: usize,
    pub marks: [bool; PLACES_MAX],
}

// What an anchor's tests give, which refuse it with 22, 13 to 15, 17 or 18. Its history: the marked places that are not committed, of
// the positions from `low` to `high`, and their number; its lowest round. The check stands beside them and not around them: the clauses say
// them of a refused anchor too.
#[derive(Clone, Copy)]
pub struct Tested {
    pub check: Result<(), Refusal>,
    pub lowest: Round,
    pub low: usize,
    pub high: usize,
    pub count: usize,
    pub marks: [bool; PLACES_MAX],
}

// The positions of the history of an anchor of this round.
fn span_of(dag: &Dag, round: Round) -> HistorySpan
    requires ready { Ready dag.now.state.now dag.now.keys.now dag.now.order.now }
    requires genesis_bound { (dag.now.state.now.genesis.0 ≤ 4000000000) × (round.0 ≤ 4000000000) }
    ensures { result ≡ history_span dag.now.state.now dag.now.keys.now dag.now.order.now round.0 }
{
    let genesis = dag.state.genesis;
    let bottom = dag.state.bottom;
    let limit = history_limit(genesis, dag.state.commit_history_rounds, round);
    let lowest = limit.max(bottom);
    let n = dag.state.count;
    let low = dag_round_order::span::cut(dag.keys, dag.order, n, lowest);
    let high = dag_round_order::span::cut(dag.keys, dag.order, n, round.plus(1));
    HistorySpan {
        limit: limit,
        lowest: lowest,
        low: low,
        high: high,
    }
}

// What the anchor of this round is refused with.
fn anchor_code(
    dag: &Dag,
    marks: &[bool; PLACES_MAX],
    taken: &[bool; PLACES_MAX],
    span: HistorySpan,
    round: Round,
) -> Result<(), Refusal>
    requires range { Range dag.now.certs.now dag.now.order.now span.low span.high }
    requires keys_len { (length dag.now.keys.now ≡ length dag.now.order.now * 8) × Rounds dag.now.keys.now dag.now.order.now span.high }
    ensures { result ≡ code_of dag.now.state.now dag.now.keys.now (supposing taken.now dag.now.certs.now) dag.now.order.now marks.now span round.0 }
{
    let genesis = dag.state.genesis;
    if round.0 <= genesis.0 {
        return Err(Refusal::Number(AT_GENESIS));
    }
    let low = span.low;
    let high = span.high;
    history_fault(marks, dag.keys, dag.certs, dag.order, low, high)?;
    let full = dag.state.full_history_bottom;
    let limit = span.limit;
    let bottom = dag.state.bottom;
    if rounds_missing(full, limit, bottom) {
        return Err(Refusal::Number(ROUNDS_MISSING));
    }
    if any_uncertified(marks, dag, taken, low, high) {
        return Err(Refusal::Number(NOT_CERTIFIED));
    }
    Ok(())
}

// The history of the anchor at a used place.
pub fn gather_history(dag: &Dag, taken: &[bool; PLACES_MAX], anchor: usize) -> Gathered
    requires started { Started dag.now.state.now dag.now.keys.now dag.now.links.now dag.now.certs.now dag.now.order.now }
    requires used { Used dag.now.order.now dag.now.state.now.count anchor }
    ensures { result ≡ gathered_of dag.now.state.now dag.now.keys.now dag.now.links.now (supposing taken.now dag.now.certs.now) dag.now.order.now anchor }
{
    let round = round_at(dag.keys, anchor);
    let span = span_of(dag, round);
    let low = span.low;
    let high = span.high;
    let bottom = dag.state.bottom;
    let marks = gather_uncommitted(
        dag.keys, dag.links, dag.certs, taken, dag.order, bottom, low, high, anchor,
    );
    let count = count_points(&marks, dag, taken, low, high);
    Gathered {
        span: span,
        count: count,
        marks: marks,
    }
}

// The tests of the anchor at a used place.
pub fn test_supposed(dag: &Dag, taken: &[bool; PLACES_MAX], anchor: usize) -> Tested
    requires started { Started dag.now.state.now dag.now.keys.now dag.now.links.now dag.now.certs.now dag.now.order.now }
    requires used { Used dag.now.order.now dag.now.state.now.count anchor }
    ensures { result ≡ tested_of dag.now.state.now dag.now.keys.now dag.now.links.now (supposing taken.now dag.now.certs.now) dag.now.order.now anchor }
{
    let round = round_at(dag.keys, anchor);
    let g = gather_history(dag, taken, anchor);
    let span = g.span;
    let marks = g.marks;
    let check = anchor_code(dag, &marks, taken, span, round);
    let lowest = span.lowest;
    Tested {
        check,
        lowest: lowest,
        low: span.low,
        high: span.high,
        count: g.count,
        marks: marks,
    }
}

// The same with no place taken, as a commit tests.
pub fn test_anchor(dag: &Dag, anchor: usize) -> Tested
    requires started { Started dag.now.state.now dag.now.keys.now dag.now.links.now dag.now.certs.now dag.now.order.now }
    requires used { Used dag.now.order.now dag.now.state.now.count anchor }
    ensures whole { result ≡ tested_of dag.now.state.now dag.now.keys.now dag.now.links.now dag.now.certs.now dag.now.order.now anchor }
    ensures outcome { unless_failed result.check (good anchor) ≡ tested (view_of dag.now) anchor }
{
    let taken = [false; PLACES_MAX];
    test_supposed(dag, &taken, anchor)
}
