// Origin: dag/dag_round.rs (used_anchor_proof), dag/commit/back.rs (DagBack), dag/commit/mod.rs (Committer), dag/commit/inspector.rs (last_round_data_map).
// Round records, the numbers of the state, the inspector's memory of its last round.
ghost use Rattle.std.specs.Prelude.{◌≡◌, ◌+◌, ◌<◌, ◌≤◌};
ghost use Rattle.commit_state.specs.State.{no_memory};
ghost use Rattle.commit_state.specs.Numbers.{conf_holds, range_holds, used_hold};
ghost use Rattle.commit_state.specs.Memory.{is_lower, memory_holds};

use models::parts::{Digest, Height, OptionRound, Round};
use models::tables::{
    DIGEST_WORDS, PEER_LAST, PEER_SLOTS, ROUND_MAX, ROUND_POINTS_MAX, ROUND_SLOTS, ROUNDS_MAX,
};

// A retained round: its peers, and the author of its used mark plus 1, or 0 for none.
#[repr(C)]
#[derive(Clone, Copy)]
pub struct RoundRecord {
    pub peers: u32,
    pub used_anchor_proof: u32,
}

// A trusted point of the inspector's last round: author, digest, digest of its previous point if it has one (has_previous isn't 0), and
// the peers that signed the previous point and did not include it.
#[repr(C)]
#[derive(Clone, Copy)]
pub struct Entry {
    pub author: u32,
    pub digest: Digest,
    pub has_previous: u32,
    pub previous: Digest,
    pub unreferenced_by: u32,
}

#[repr(C)]
#[derive(Clone, Copy)]
pub struct Memory {
    pub last: Round,
    pub count: usize,
    pub entries: [Entry; ROUND_POINTS_MAX],
}

// phase: 1 started, 2 reset, other numbers neither. count: the number of used places. Rounds from bottom to top are retained, round r in
// record r modulo 512. emit_first_after_gap: 0 disarmed, 1 before the gap question, else after it. Numbers stand for yes, no and none in
// these structs, since they cross to C by value.
#[repr(C)]
#[derive(Clone, Copy)]
pub struct State {
    pub phase: u32,
    pub count: usize,
    pub genesis: Round,
    pub commit_history_rounds: u32,
    pub deduplicate_rounds: u32,
    pub bottom: Round,
    pub top: Round,
    pub last_committed_proof: OptionRound,
    pub last_anchor: OptionRound,
    pub full_history_bottom: Round,
    pub first_executable: Round,
    pub emit_first_after_gap: u32,
    pub rounds: [RoundRecord; ROUNDS_MAX],
    pub memory: Memory,
}

impl State {
    // The height of a point certified directly.
    pub fn top_height(&self) -> Height
        requires { self.now.commit_history_rounds ≤ 255 }
        ensures { result.0 ≡ self.now.commit_history_rounds + 1 }
    {
        Height((self.commit_history_rounds + 1) as u16)
    }
}

pub fn empty_memory() -> Memory
    ensures { result ≡ no_memory }
{
    let entry = Entry {
        author: 0,
        digest: Digest([0; DIGEST_WORDS]),
        has_previous: 0,
        previous: Digest([0; DIGEST_WORDS]),
        unreferenced_by: 0,
    };
    Memory {
        last: Round(0),
        count: 0,
        entries: [entry; ROUND_POINTS_MAX],
    }
}

// H at most.
const HISTORY_MAX: u32 = 255;

// The rounds to deduplicate at most.
const DEDUPLICATE_MAX: u32 = 65535;

// Start's ranges of H and of the rounds to deduplicate.
pub fn conf_holds(history: u32, deduplicate: u32) -> bool
    ensures { result ≡ conf_holds history deduplicate }
{
    if history == 0 {
        return false;
    }
    if HISTORY_MAX < history {
        return false;
    }
    deduplicate <= DEDUPLICATE_MAX
}

// Whether the rounds lie in their ranges, and at most 512 are retained.
pub fn range_holds(genesis: Round, bottom: Round, top: Round) -> bool
    ensures { result ≡ range_holds genesis.0 bottom.0 top.0 }
{
    let g = genesis.0;
    let b = bottom.0;
    let t = top.0;
    if b < g {
        return false;
    }
    if t < b {
        return false;
    }
    if ROUND_MAX < t {
        return false;
    }
    t - b < ROUND_SLOTS
}

// Whether the used marks of the n rounds from bottom on are authors.
pub fn used_hold(s: &State, n: u32) -> bool
    requires { s.now.bottom.0 + n < 4294967296 }
    ensures { result ≡ used_hold s.now.rounds s.now.bottom.0 n }
{
    let bottom = s.bottom.0;
    (bottom..bottom + n).all(|round| s.rounds[(round % ROUND_SLOTS) as usize].used_anchor_proof
        <= PEER_SLOTS)
}

// Whether the digest of an entry is below that of another one.
fn is_lower(a: Entry, b: Entry) -> bool
    ensures { result ≡ is_lower a b }
{
    dag_round_keys::digest_less(&a.digest.0, 0, &b.digest.0, 0)
}

// Whether the inspector's memory is one that an inspection leaves: at most 128 entries, their authors peers, their digests rising.
pub fn memory_holds(m: &Memory) -> bool
    ensures { result ≡ memory_holds m.now }
{
    let n = m.count;
    if ROUND_POINTS_MAX < n {
        return false;
    }
    for i in 0..n {
        let x = m.entries[i];
        if PEER_LAST < x.author {
            return false;
        }
        if i + 1 < n {
            let y = m.entries[i + 1];
            if !is_lower(x, y) {
                return false;
            }
        }
    }
    true
}
