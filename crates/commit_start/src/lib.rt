// Origin: dag/commit/mod.rs (init, reset), dag/commit/back.rs (init), dag/front.rs (DagFront::new).
// The calls start and reset.
#![tactic(auto)]

ghost use Rattle.std.specs.Prelude.{◌≡◌, cond, length, []};
ghost use Rattle.spec.specs.Rules.{counts_as_started};
ghost use Rattle.spec.specs.Calls as calls;
ghost use Rattle.commit_state.specs.Reads.{start_args_of};
ghost use Rattle.commit_state.specs.Back.{Starts};
ghost use Rattle.tables_test.specs.Model.{shape};
ghost use Rattle.tables_test.specs.View.{view_of};
ghost use Rattle.commit_answer.specs.Answer.{Did, tables, left};
ghost use Rattle.commit_start.specs.Blank.{blank};
ghost use Rattle.commit_start.specs.Start.{start_check, kept_memory, start_left, reset_left};

use commit_answer::answer::{Answer, Outcome, refused};
use commit_state::back::{StartArgs, init_state, reset_state, used_ok};
use commit_state::dag::Dag;
use commit_state::state::{Memory, State, conf_holds, empty_memory, memory_holds};
use dag_round_keys::zero_words;
use models::refusal::{BAD_START, Refusal, WRONG_PHASE};
use models::tables::ROUND_MAX;
use tables_test::{counts_as_started, places_hold, shape_holds};

// The number of places, 0 of tables that have room for different numbers.
fn places_of(keys: &[u64], links: &[u64], certs: &[u64], order: &[u64]) -> usize
    ensures { result ≡ cond (shape keys.now links.now certs.now order.now) (length order.now) 0 }
{
    if !shape_holds(keys, links, certs, order) {
        return 0;
    }
    order.len()
}

// Whether what a start takes lies in its ranges.
fn begins(with: StartArgs, places: usize) -> bool
    ensures { result ≡ calls.start_ok places (start_args_of with) }
{
    let genesis = with.genesis;
    let bottom = with.bottom;
    let used = with.used;
    if !conf_holds(with.commit_history_rounds, with.deduplicate_rounds) {
        return false;
    }
    if ROUND_MAX < genesis.0 {
        return false;
    }
    if ROUND_MAX < bottom.0 {
        return false;
    }
    if bottom.0 < genesis.0 {
        return false;
    }
    if !used_ok(used) {
        return false;
    }
    places_hold(places)
}

// Whether a start is refused: its ranges, then tables that count as started.
fn check_start(dag: &Dag, with: StartArgs) -> Result<(), Refusal>
    ensures { result ≡ start_check (view_of dag.now) with }
{
    let places = places_of(dag.keys, dag.links, dag.certs, dag.order);
    if !begins(with, places) {
        return Err(Refusal::Number(BAD_START));
    }
    if counts_as_started(dag) {
        return Err(Refusal::Number(WRONG_PHASE));
    }
    Ok(())
}

// The inspector's memory that a start keeps: a reset's, if it holds.
fn kept_memory(s: &State) -> Memory
    ensures { result ≡ kept_memory s.now }
{
    if s.phase != 2 {
        return empty_memory();
    }
    if s.count != 0 {
        return empty_memory();
    }
    if !memory_holds(&s.memory) {
        return empty_memory();
    }
    s.memory
}

// Zeroes the tables.
fn clear(keys: &mut [u64], links: &mut [u64], certs: &mut [u64], order: &mut [u64])
    ensures keys { keys.new ≡ blank keys.old }
    ensures links { links.new ≡ blank links.old }
    ensures certs { certs.new ≡ blank certs.old }
    ensures order { order.new ≡ blank order.old }
{
    let k = keys.len();
    zero_words(keys, 0, k);
    let l = links.len();
    zero_words(links, 0, l);
    let c = certs.len();
    zero_words(certs, 0, c);
    let o = order.len();
    zero_words(order, 0, o);
}

// Starts on tables that don't count as started. What they held is cleared; the inspector's memory stays after a reset.
pub fn init(
    s: State,
    keys: &mut [u64],
    links: &mut [u64],
    certs: &mut [u64],
    order: &mut [u64],
    with: StartArgs,
) -> Outcome
    ensures { Did (calls.start (start_args_of with)) (start_left with) (tables s keys.old links.old certs.old order.old)
        (left result keys.new links.new certs.new order.new []) }
{
    let dag = Dag {
        state: &s,
        keys,
        links,
        certs,
        order,
    };
    let check = check_start(&dag, with);
    if let Err(why) = check {
        return refused(s, why);
    }
    let memory = kept_memory(&s);
    clear(keys, links, certs, order);
    let next = init_state(memory, with);
    Outcome {
        answer: Answer::Done,
        state: next,
    }
}

// Clears state and tables; the inspector's memory stays.
pub fn reset(
    s: State,
    keys: &mut [u64],
    links: &mut [u64],
    certs: &mut [u64],
    order: &mut [u64],
) -> Outcome
    ensures { Did calls.reset_all reset_left (tables s keys.old links.old certs.old order.old)
        (left result keys.new links.new certs.new order.new []) }
{
    let dag = Dag {
        state: &s,
        keys,
        links,
        certs,
        order,
    };
    if !counts_as_started(&dag) {
        return refused(s, Refusal::Number(WRONG_PHASE));
    }
    clear(keys, links, certs, order);
    let next = reset_state(s);
    Outcome {
        answer: Answer::Done,
        state: next,
    }
}
