// Origin: dag/commit/inspector.rs (inspect, last_round_data_map).
// The rounds that a remove drains: the rows that each meets and leaves, what one reports (round), and all that is found at one (inspect).
#![tactic(auto)]

ghost use Rattle.std.specs.Prelude.{◌≡◌, true, ◌≤◌, length};
ghost use Rattle.spec.specs.Rules.{counts_as_started};
ghost use Rattle.spec.specs.Inspection.{first_shown};
ghost use Rattle.tables_test.specs.View.{view_of};
ghost use Rattle.inspector_inspect.specs.Filled.{RoundRows, RowsBefore};
ghost use Rattle.inspector_inspect.specs.After.{first_inspected, memory_left};

use commit_state::dag::Dag;
use commit_state::state::{Memory, State};
use dag_round_order::span::span_at;
use inspector_references::trusted_places;
use inspector_rows::{memory_of, must_reference, rows_of};
use models::parts::Round;
use models::tables::{ROUND_POINTS_MAX, ROWS_WORDS};

pub mod inspect;
pub mod round;

// The rows of a round's trusted points, and their number.
pub fn fill_round(dag: &Dag, round: Round, rows: &mut [u64]) -> usize
    requires order_value { counts_as_started (view_of dag.now) ≡ true }
    requires round_bound { (round.0 ≤ 4000000000) × (1408 ≤ length rows.old) }
    ensures { RoundRows dag.now.state.now dag.now.keys.now dag.now.links.now dag.now.certs.now dag.now.order.now round.0 rows.old rows.new result }
{
    let bottom = dag.state.bottom;
    let span = span_at(dag.keys, dag.order, dag.state.count, round);
    let trusted = trusted_places(dag, span.low, span.high);
    let places = trusted.places;
    let n = trusted.count;
    must_reference(dag.keys, dag.links, &places, n, bottom.0 < round.0, rows);
    n
}

// The rows that a round meets, and their number: at the bottom those of the state's memory, above it those that the round below leaves.
pub fn fill_before(dag: &Dag, round: Round, rows: &mut [u64]) -> usize
    requires order_value { counts_as_started (view_of dag.now) ≡ true }
    requires round_bound { (round.0 ≤ 4000000000) × (1408 ≤ length rows.old) }
    ensures { RowsBefore dag.now.state.now dag.now.keys.now dag.now.links.now dag.now.certs.now dag.now.order.now round.0 rows.new result }
{
    let bottom = dag.state.bottom;
    if round.0 == bottom.0 {
        let memory = dag.state.memory;
        // What is behind a reference doesn't tell its arrays' lengths.
        prove!(memory.entries[..].len() == ROUND_POINTS_MAX);
        rows_of(memory, rows);
        return memory.count;
    }
    fill_round(dag, round.prev(), rows)
}

// The lowest round that a remove may inspect: the last non-executable one, or the bottom if that is above it.
fn first_inspected(s: &State) -> Round
    ensures { result.0 ≡ first_inspected s.now }
{
    let bottom = s.bottom;
    let genesis = s.genesis;
    let executable = s.first_executable;
    let last = executable.prev();
    bottom.max(last.max(genesis))
}

// The lowest round that is reported: the first executable one above genesis, or the bottom if that is above it.
pub fn first_shown(dag: &Dag) -> Round
    requires { counts_as_started (view_of dag.now) ≡ true }
    ensures { result.0 ≡ first_shown (view_of dag.now) }
{
    let bottom = dag.state.bottom;
    let genesis = dag.state.genesis;
    let executable = dag.state.first_executable;
    bottom.max(executable.max(genesis.plus(1)))
}

// The memory after the rounds below `low` are drained: that of the last round inspected, else as it was.
pub fn memory_after(dag: &Dag, low: Round) -> Memory
    requires order_value { counts_as_started (view_of dag.now) ≡ true }
    requires low_bound { low.0 ≤ 4000000000 }
    ensures { result ≡ memory_left dag.now.state.now dag.now.keys.now dag.now.links.now dag.now.certs.now dag.now.order.now low.0 }
{
    let first = first_inspected(dag.state);
    if low.0 <= first.0 {
        return dag.state.memory;
    }
    let last = low.prev();
    let mut rows: [u64; ROWS_WORDS] = [0; ROWS_WORDS];
    let n = fill_round(dag, last, &mut rows);
    memory_of(last, n, &rows)
}
