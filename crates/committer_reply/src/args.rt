// Origin: none.
// Arguments of the C boundary as the calls' own.
ghost use Rattle.std.specs.Prelude.{◌≡◌};
ghost use Rattle.stats.specs.Ranges.{since_of};
ghost use Rattle.committer_reply.specs.Args.{start_args_in, used_in, since_in, info_in};

use commit_state::back::StartArgs;
use models::info::PointInfo;
use models::parts::{PointId, Round};

// What a start takes. after_gap: 0 for no. used: the author of the bottom's used mark, 4294967295 for none.
#[repr(C)]
#[derive(Clone, Copy)]
pub struct Start {
    pub genesis: u32,
    pub commit_history_rounds: u32,
    pub deduplicate_rounds: u32,
    pub bottom: u32,
    pub peers: u32,
    pub after_gap: u32,
    pub used: u32,
}

fn used_in(used: u32) -> Option<u32>
    ensures { result ≡ used_in used }
{
    if used == 4294967295 {
        return None;
    }
    Some(used)
}

// What a start takes, as its call takes it.
pub fn start_args_in(with: Start) -> StartArgs
    ensures { result ≡ start_args_in with }
{
    let used = used_in(with.used);
    StartArgs {
        genesis: Round(with.genesis),
        commit_history_rounds: with.commit_history_rounds,
        deduplicate_rounds: with.deduplicate_rounds,
        bottom: Round(with.bottom),
        peers: with.peers,
        after_gap: with.after_gap != 0,
        used,
    }
}

// `stats_since` of a remove, as its call takes it. has_since: 0 for none.
pub fn since_in(has_since: u32, since: u32) -> Option<Round>
    ensures { since_of result ≡ since_in has_since since }
{
    if has_since == 0 {
        return None;
    }
    Some(Round(since))
}

// What a resolution gives. marks: bit 0 proof, 1 trigger, 2 cause; further bits aren't read. includes, witness: their numbers of links.
#[repr(C)]
#[derive(Clone, Copy)]
pub struct Resolution {
    pub status: u32,
    pub marks: u32,
    pub top_proof: PointId,
    pub evidence: u32,
    pub includes: usize,
    pub witness: usize,
    pub payload_len: u32,
    pub payload_bytes: u32,
}

// What a resolution gives, as its call takes it.
pub fn info_in(resolution: Resolution) -> PointInfo
    ensures { result ≡ info_in resolution }
{
    let marks = resolution.marks;
    let top_proof = resolution.top_proof;
    PointInfo {
        status: resolution.status,
        proof: marks % 2 == 1,
        trigger: marks / 2 % 2 == 1,
        cause: marks / 4 % 2 == 1,
        top_proof,
        evidence: resolution.evidence,
        includes: resolution.includes,
        witness: resolution.witness,
        payload_len: resolution.payload_len,
        payload_bytes: resolution.payload_bytes,
    }
}
