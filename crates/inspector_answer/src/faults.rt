// Origin: dag/commit/inspector.rs (take_events).
// The events of the points' faults, of all rounds that a remove reports.
ghost use Rattle.std.specs.Prelude.{◌≡◌, true, ◌≤◌};
ghost use Rattle.spec.specs.Rules.{counts_as_started};
ghost use Rattle.spec.specs.Inspect.{event_bytes};
ghost use Rattle.spec.specs.Inspection.{first_shown};
ghost use Rattle.tables_test.specs.View.{view_of};
ghost use Rattle.inspector_events.specs.Told.{Told, Ready};
ghost use Rattle.inspector_answer.specs.AllFaults.{fault_events, all_faults};

use commit_state::dag::Dag;
use inspector_events::emitted::Emitted;
use inspector_faults::{Fault, emit_fault_rounds};
use models::parts::Round;

// Those of one fault, of the rounds from `first` on, below `low`.
fn emit_fault_events(
    dag: &Dag,
    first: Round,
    low: Round,
    b: &mut [u8],
    e: Emitted,
    write: bool,
    fault: Fault,
) -> Emitted
    requires order_value { counts_as_started (view_of dag.now) ≡ true }
    requires first_value { (first.0 ≡ first_shown (view_of dag.now)) × (low.0 ≤ dag.now.state.now.top.0) }
    requires ready { Ready event_bytes write b.old e (fault_events fault (view_of dag.now) low.0) }
    ensures { Told event_bytes write b.old e
        (fault_events fault (view_of dag.now) low.0) result b.new }
{
    let rounds = low.minus(first.0);
    emit_fault_rounds(dag, dag.state.count, b, e, write, first, rounds.0, fault)
}

// Those of all four, one after the other.
pub fn emit_all_faults(
    dag: &Dag,
    first: Round,
    low: Round,
    b: &mut [u8],
    e: Emitted,
    write: bool,
) -> Emitted
    requires order_value { counts_as_started (view_of dag.now) ≡ true }
    requires first_value { (first.0 ≡ first_shown (view_of dag.now)) × (low.0 ≤ dag.now.state.now.top.0) }
    requires ready { Ready event_bytes write b.old e (all_faults (view_of dag.now) low.0) }
    ensures { Told event_bytes write b.old e
        (all_faults (view_of dag.now) low.0) result b.new }
{
    let fault = Fault::TransInvalid;
    let e = emit_fault_events(dag, first, low, b, e, write, fault);
    let fault = Fault::Invalid;
    let e = emit_fault_events(dag, first, low, b, e, write, fault);
    let fault = Fault::IllFormed;
    let e = emit_fault_events(dag, first, low, b, e, write, fault);
    let fault = Fault::Equivocated;
    emit_fault_events(dag, first, low, b, e, write, fault)
}
