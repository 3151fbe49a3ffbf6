// Origin: dag/commit/inspector.rs (take_events).
// The faults of the points of a round, and of rounds.
#![tactic(auto)]

ghost use Rattle.std.specs.Prelude.{◌≡◌, ℕ, ◌+◌, ◌*◌, ◌-◌, ◌<◌, ◌≤◌, length};
ghost use Rattle.laws.specs.Lists.{up_to};
ghost use Rattle.spec.specs.Inspect.{event_bytes};
ghost use Rattle.models.specs.Tables.{Inside};
ghost use Rattle.dag_round_keys.specs.Sorted.{Sorted};
ghost use Rattle.back_history.specs.Model.{Range};
ghost use Rattle.inspector_counters.specs.Count.{count_of};
ghost use Rattle.inspector_events.specs.Told.{Told, Ready};
ghost use Rattle.inspector_faults.specs.Faults.{kind_of, test_for, count_for, fault_of, round_faults};

use commit_state::dag::Dag;
use dag_round_order::span::span_at;
use inspector_counters::counts::{PointCounts, round_counts};
use inspector_counters::tests::PointTest;
use inspector_events::author::{emit_fork, emit_singles};
use inspector_events::emitted::Emitted;
use models::parts::Round;

// The faults of points that remove's events tell of.
#[derive(Clone, Copy)]
pub enum Fault {
    TransInvalid,
    Invalid,
    IllFormed,
    Equivocated,
}

impl Fault {
    // The kind of its events.
    fn kind(self) -> u64
        ensures { result ≡ kind_of self }
    {
        match self {
            Fault::TransInvalid => 1,
            Fault::Invalid => 2,
            Fault::IllFormed => 3,
            Fault::Equivocated => 4,
        }
    }

    // The test of the points that they are about.
    fn test(self) -> PointTest
        ensures { result ≡ test_for self }
    {
        match self {
            Fault::TransInvalid => PointTest::TransInvalid,
            Fault::Invalid => PointTest::Invalid,
            Fault::IllFormed => PointTest::IllFormed,
            Fault::Equivocated => PointTest::Found,
        }
    }

    // How many pass it.
    fn count(self, counts: PointCounts) -> u16
        ensures { result ≡ count_for self counts }
    {
        match self {
            Fault::TransInvalid => counts.trans_invalid,
            Fault::Invalid => counts.invalid,
            Fault::IllFormed => counts.ill_formed,
            Fault::Equivocated => counts.found,
        }
    }
}

// The events of this fault of an author of whose points there so many pass its test.
fn emit_fault(
    keys: &[u64],
    certs: &[u64],
    order: &[u64],
    low: usize,
    high: usize,
    b: &mut [u8],
    e: Emitted,
    write: bool,
    author: u32,
    round: Round,
    fault: Fault,
    n: u16,
) -> Emitted
    requires range { Range certs.now order.now low high × (length keys.now ≡ length order.now * 8) }
    requires n_value { n ≡ count_of keys.now certs.now order.now low high author (test_for fault) }
    requires ready { Ready event_bytes write b.old e (fault_of keys.now certs.now order.now low (high - low) round.0 fault author) }
    ensures { Told event_bytes write b.old e (fault_of keys.now certs.now order.now low (high - low) round.0 fault author) result b.new }
{
    if n == 0 {
        return e;
    }
    match fault {
        Fault::Equivocated => emit_fork(
            keys, certs, order, low, high, b, e, write, author, round, n,
        ),
        _ => {
            let kind = fault.kind();
            let test = fault.test();
            emit_singles(
                keys, certs, order, low, high, b, e, write, author, kind, test,
            )
        }
    }
}

// The events of this fault of the points of a round, from position `low` to `high`, by rising author, then by rising digest.
pub fn emit_faults(
    keys: &[u64],
    certs: &[u64],
    order: &[u64],
    low: usize,
    high: usize,
    b: &mut [u8],
    e: Emitted,
    write: bool,
    round: Round,
    fault: Fault,
) -> Emitted
    requires range { Range certs.now order.now low high × (length keys.now ≡ length order.now * 8) }
    requires ready { Ready event_bytes write b.old e (up_to 32 (fault_of keys.now certs.now order.now low (high - low) round.0 fault)) }
    ensures { Told event_bytes write b.old e (up_to 32 (fault_of keys.now certs.now order.now low (high - low) round.0 fault)) result b.new }
{
    let counts = round_counts(keys, certs, order, low, high);
    let mut out = e;
    for (author, &found) in counts.iter().enumerate() {
        let n = fault.count(found);
        let author = author as u32;
        out = emit_fault(
            keys, certs, order, low, high, b, out, write, author, round, fault, n,
        );
    }
    out
}

// Those of so many rounds from `first` on, of the first n positions.
pub fn emit_fault_rounds(
    dag: &Dag,
    n: usize,
    b: &mut [u8],
    e: Emitted,
    write: bool,
    first: Round,
    rounds: u32,
    fault: Fault,
) -> Emitted
    requires keys_len { (length dag.now.keys.now ≡ length dag.now.order.now * 8) × (n ≤ length dag.now.order.now) × Inside dag.now.order.now n (length dag.now.order.now) }
    requires sorted { Sorted dag.now.keys.now dag.now.order.now n × (length dag.now.order.now ≤ 4096) × (length dag.now.certs.now ≡ length dag.now.order.now) }
    requires by_index { (j : ℕ) → j < rounds → first.0 + j ≤ 4000000000 }
    requires ready { Ready event_bytes write b.old e (up_to rounds (λ j. round_faults dag.now.keys.now dag.now.certs.now dag.now.order.now n fault (first.0 + j))) }
    ensures { Told event_bytes write b.old e
        (up_to rounds (λ j. round_faults dag.now.keys.now dag.now.certs.now dag.now.order.now n fault (first.0 + j))) result b.new }
{
    let mut out = e;
    for k in 0..rounds {
        let round = first.plus(k);
        let span = span_at(dag.keys, dag.order, n, round);
        out = emit_faults(
            dag.keys, dag.certs, dag.order, span.low, span.high, b, out, write, round, fault,
        );
    }
    out
}
