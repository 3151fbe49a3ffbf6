// Origin: dag/commit/inspector.rs (inspect).
// One round that is inspected, with the rows that it meets.
ghost use Rattle.std.specs.Prelude.{◌≡◌, true, ◌≤◌, length};
ghost use Rattle.laws.specs.Lists.{keep};
ghost use Rattle.spec.specs.Rules.{counts_as_started};
ghost use Rattle.spec.specs.Inspect.{is_trusted, places_in, event_bytes};
ghost use Rattle.spec.specs.Inspection.{before};
ghost use Rattle.tables_test.specs.View.{view_of};
ghost use Rattle.inspector_references.specs.Trusted.{Listed};
ghost use Rattle.inspector_events.specs.Told.{Ready, Told};
ghost use Rattle.inspector_inspect.specs.Filled.{RowsBefore};
ghost use Rattle.inspector_inspect.specs.Owed.{last_before, Owed};
ghost use Rattle.inspector_inspect.specs.Report.{IsReported, owed_of};

use crate::fill_before;
use commit_state::dag::Dag;
use commit_state::state::State;
use dag_round_order::span::span_at;
use inspector_events::emitted::Emitted;
use inspector_not_referenced::{NotReferenced, not_referenced};
use inspector_references::trusted_places;
use inspector_signers::emit_signers;
use models::parts::Round;
use models::tables::ROUND_POINTS_MAX;

// The round of the rows that a round meets.
pub fn last_before(s: &State, round: Round) -> Round
    ensures { result.0 ≡ last_before s.now round.0 }
{
    let bottom = s.bottom;
    if round.0 == bottom.0 {
        let memory = s.memory;
        return memory.last;
    }
    round.prev()
}

// The signers that are reported at a round: its trusted points are at the first m places, the first n rows are those that it meets.
pub fn signers_at(
    dag: &Dag,
    round: Round,
    places: &[usize],
    m: usize,
    rows: &[u64],
    n: usize,
) -> NotReferenced
    requires order_value { counts_as_started (view_of dag.now) ≡ true }
    requires listed { Listed places.now m (keep (is_trusted (view_of dag.now))
        (places_in (view_of dag.now) round.0)) }
    requires rows_before { RowsBefore dag.now.state.now dag.now.keys.now dag.now.links.now dag.now.certs.now dag.now.order.now round.0 rows.now n × (1408 ≤ length rows.now) }
    ensures { Owed (before (view_of dag.now) round.0)
        (view_of dag.now) round.0 rows.now n result.sets result.signers }
{
    let bottom = dag.state.bottom;
    let last = last_before(dag.state, round);
    let below = round.prev();
    not_referenced(
        dag.keys,
        dag.links,
        places,
        m,
        bottom.0 < below.0,
        last.0 == below.0,
        rows,
        n,
    )
}

// What a round reports: the rows that it meets are the first `rows`, its trusted points are at the first `count` of the places, `sets` are
// the signers that are reported by each row, `signers` by all.
#[derive(Clone, Copy)]
pub struct Reported {
    pub rows: usize,
    pub count: usize,
    pub places: [usize; ROUND_POINTS_MAX],
    pub sets: [u64; ROUND_POINTS_MAX],
    pub signers: u64,
}

// What this round reports; fills the rows that it meets.
pub fn report(dag: &Dag, round: Round, rows: &mut [u64]) -> Reported
    requires order_value { counts_as_started (view_of dag.now) ≡ true }
    requires round_bound { (round.0 ≤ 4000000000) × (1408 ≤ length rows.old) }
    ensures { IsReported dag.now.state.now dag.now.keys.now dag.now.links.now dag.now.certs.now dag.now.order.now round.0 rows.new result }
{
    let n = fill_before(dag, round, rows);
    let span = span_at(dag.keys, dag.order, dag.state.count, round);
    let trusted = trusted_places(dag, span.low, span.high);
    let places = trusted.places;
    let count = trusted.count;
    let owed = signers_at(dag, round, &places, count, rows, n);
    let sets = owed.sets;
    Reported {
        rows: n,
        count,
        places,
        sets,
        signers: owed.signers,
    }
}

// The events of kind 5 of what a round reports, written or only counted; the rows are those that it meets.
pub fn emit_reported(
    dag: &Dag,
    round: Round,
    rows: &[u64],
    x: Reported,
    b: &mut [u8],
    e: Emitted,
    write: bool,
) -> Emitted
    requires order_value { counts_as_started (view_of dag.now) ≡ true }
    requires reported { IsReported dag.now.state.now dag.now.keys.now dag.now.links.now dag.now.certs.now dag.now.order.now round.0 rows.now x }
    requires ready { Ready event_bytes write b.old e (owed_of dag.now.state.now dag.now.keys.now dag.now.links.now dag.now.certs.now dag.now.order.now round.0) }
    ensures { Told event_bytes write b.old e
        (owed_of dag.now.state.now dag.now.keys.now dag.now.links.now dag.now.certs.now dag.now.order.now round.0) result b.new }
{
    let last = last_before(dag.state, round);
    let places = x.places;
    let sets = x.sets;
    emit_signers(
        dag.keys, &places, x.count, rows, &sets, x.rows, last, b, e, write, x.signers,
    )
}

// The events of kind 5 of a round, written or only counted; fills the rows that it meets.
pub fn emit_owed(
    dag: &Dag,
    round: Round,
    rows: &mut [u64],
    b: &mut [u8],
    e: Emitted,
    write: bool,
) -> Emitted
    requires order_value { counts_as_started (view_of dag.now) ≡ true }
    requires round_bound { (round.0 ≤ 4000000000) × (1408 ≤ length rows.old) }
    requires ready { Ready event_bytes write b.old e (owed_of dag.now.state.now dag.now.keys.now dag.now.links.now dag.now.certs.now dag.now.order.now round.0) }
    ensures { Told event_bytes write b.old e
        (owed_of dag.now.state.now dag.now.keys.now dag.now.links.now dag.now.certs.now dag.now.order.now round.0) result b.new }
{
    let x = report(dag, round, rows);
    emit_reported(dag, round, rows, x, b, e, write)
}
