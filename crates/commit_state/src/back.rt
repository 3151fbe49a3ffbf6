// Origin: dag/commit/back.rs (init, extend_from_front, drain_upto), dag/commit/mod.rs (init, reset, is_once_after_gap, drop_upto, remove_committed).
// What the calls do to the state.
ghost use Rattle.std.specs.Prelude.{◌≡◌, ◌+◌, ◌<◌, ◌≤◌, true};
ghost use Rattle.commit_state.specs.Back.{Starts, begun_state, empty_state, unstarted_state, cleared_state, extended_state, asked_state, dropped_state, removed_state};
ghost use Rattle.commit_state.specs.Back.{full_bottom, first_of, armed_of, used_of, used_word};
ghost use Rattle.spec.specs.Rules.{used_ok};

use crate::state::{Memory, RoundRecord, State, empty_memory};
use models::parts::{OptionRound, Round};
use models::tables::{PEER_SLOTS, ROUND_SLOTS, ROUNDS_MAX};

// What a start takes.
#[derive(Clone, Copy)]
pub struct StartArgs {
    pub genesis: Round,
    pub commit_history_rounds: u32,
    pub deduplicate_rounds: u32,
    pub bottom: Round,
    pub peers: u32,
    pub after_gap: bool,
    // The author of a used mark, if there is one.
    pub used: Option<u32>,
}

pub fn used_ok(used: Option<u32>) -> bool
    ensures { result ≡ used_ok (used_of used) }
{
    match used {
        None => true,
        Some(author) => author < PEER_SLOTS,
    }
}

// An author's number in a round record.
fn used_word(used: Option<u32>) -> u32
    requires { used_ok (used_of used) ≡ true }
    ensures { result ≡ used_word used }
{
    match used {
        None => 0,
        Some(author) => author + 1,
    }
}

// The full-history bottom of a start.
fn full_bottom(genesis: Round, history: u32, bottom: Round) -> Round
    requires { (genesis.0 ≤ 4000000000) × (history ≤ 255) × (bottom.0 ≤ 4000000000) }
    ensures { result.0 ≡ full_bottom genesis.0 history bottom.0 }
{
    if bottom.0 <= genesis.0 + history {
        return bottom;
    }
    bottom.plus(history)
}

// The first executable round of a start.
fn first_executable(after_gap: bool, full: Round, deduplicate: u32, bottom: Round) -> Round
    requires { full.0 + deduplicate < 4294967296 }
    ensures { result.0 ≡ first_of after_gap full.0 deduplicate bottom.0 }
{
    if after_gap {
        full.plus(deduplicate)
    } else {
        bottom
    }
}

// The number of the gap flag of a start.
fn armed(after_gap: bool) -> u32
    ensures { result ≡ armed_of after_gap }
{
    if after_gap { 1 } else { 0 }
}

// The state after a start.
pub fn init_state(memory: Memory, with: StartArgs) -> State
    requires { Starts with }
    ensures { result ≡ begun_state memory with }
{
    let genesis = with.genesis;
    let bottom = with.bottom;
    let used = with.used;
    let b = bottom.0;
    let word = used_word(used);
    let full = full_bottom(genesis, with.commit_history_rounds, bottom);
    let first = first_executable(with.after_gap, full, with.deduplicate_rounds, bottom);
    let gap = armed(with.after_gap);
    let empty = RoundRecord {
        peers: 0,
        used_anchor_proof: 0,
    };
    let mut rounds = [empty; ROUNDS_MAX];
    rounds[(b % ROUND_SLOTS) as usize] = RoundRecord {
        peers: with.peers,
        used_anchor_proof: word,
    };
    State {
        phase: 1,
        count: 0,
        genesis,
        commit_history_rounds: with.commit_history_rounds,
        deduplicate_rounds: with.deduplicate_rounds,
        bottom,
        top: bottom,
        last_committed_proof: OptionRound::NONE,
        last_anchor: OptionRound::NONE,
        full_history_bottom: full,
        first_executable: first,
        emit_first_after_gap: gap,
        rounds,
        memory,
    }
}

// A state in which all but the phase and the inspector's memory is 0.
fn empty_state(phase: u32, memory: Memory) -> State
    ensures { result ≡ empty_state phase memory }
{
    let empty = RoundRecord {
        peers: 0,
        used_anchor_proof: 0,
    };
    State {
        phase,
        count: 0,
        genesis: Round(0),
        commit_history_rounds: 0,
        deduplicate_rounds: 0,
        bottom: Round(0),
        top: Round(0),
        last_committed_proof: OptionRound::NONE,
        last_anchor: OptionRound::NONE,
        full_history_bottom: Round(0),
        first_executable: Round(0),
        emit_first_after_gap: 0,
        rounds: [empty; ROUNDS_MAX],
        memory,
    }
}

// The state that no call has written: all zeros.
pub fn unstarted() -> State
    ensures { result ≡ unstarted_state }
{
    let memory = empty_memory();
    empty_state(0, memory)
}

// The state after a reset: the inspector's memory stays.
pub fn reset_state(s: State) -> State
    ensures { result ≡ cleared_state s }
{
    let memory = s.memory;
    empty_state(2, memory)
}

// One round more, above the top.
pub fn extend_state(s: State, peers: u32) -> State
    requires { s.top.0 < 4000000000 }
    ensures { result ≡ extended_state s peers }
{
    let top = s.top;
    let above = top.0 + 1;
    let mut next = s;
    next.rounds[(above % ROUND_SLOTS) as usize] = RoundRecord {
        peers,
        used_anchor_proof: 0,
    };
    let higher = Round(above);
    next.top = higher;
    next
}

// The gap question is put.
pub fn ask_state(s: State) -> State
    ensures { result ≡ asked_state s }
{
    let mut next = s;
    next.emit_first_after_gap = 2;
    next
}

// The rounds below bottom are gone, and count places are used; a history is full from H rounds above `actual` on.
pub fn drop_state(s: State, actual: Round, bottom: Round, count: usize) -> State
    requires { (actual.0 ≤ 4000000000) × (s.commit_history_rounds ≤ 255) × (s.deduplicate_rounds ≤ 65535) }
    ensures { result ≡ dropped_state s actual.0 bottom.0 count }
{
    let full = actual.0 + s.commit_history_rounds;
    let complete = Round(full);
    let first = Round(full + s.deduplicate_rounds);
    let mut next = s;
    next.bottom = bottom;
    next.count = count;
    next.full_history_bottom = complete;
    next.first_executable = first;
    next.emit_first_after_gap = 1;
    next
}

// The rounds below bottom are gone, count places are used, and the inspector has the memory given. All else stays: only a reset forgets
// the last proof and the last anchor.
pub fn removed_state(s: State, bottom: Round, count: usize, memory: Memory) -> State
    ensures { result ≡ removed_state s bottom.0 count memory }
{
    let mut next = s;
    next.bottom = bottom;
    next.count = count;
    next.memory = memory;
    next
}
