// Origin: none.
// The fields of a record as what its call takes.
ghost use Rattle.std.specs.Prelude.{◌≡◌, ◌+◌, ◌*◌, ◌≤◌, length};
ghost use Rattle.laws.specs.Bytes.{written};
ghost use Rattle.stats.specs.Ranges.{since_of};
ghost use Rattle.trace.specs.Numbers.{number_at};
ghost use Rattle.trace.specs.Head.{links_in};
ghost use Rattle.trace.specs.Fields.{used_author_in, start_args_in, since_in, info_in};
ghost use Rattle.trace.specs.Links.{link_words, links_words};

use crate::bytes::{byte_of, digest_words, id_of, number_of};
use commit_state::back::StartArgs;
use models::info::PointInfo;
use models::output::{COUNT_BYTES, DIGEST_BYTES, ID_BYTES};
use models::parts::Round;
use models::tables::REF_WORDS;

// The byte of a used author that stands for nobody.
pub const NOBODY: u32 = 255;

// A start: genesis (4), H (4), rounds to deduplicate (4), bottom (4), peers (4), after a gap (1), used author (1).
pub const START_BYTES: usize = 22;

const START_HISTORY: usize = 4;

const START_DEDUPLICATE: usize = 8;

const START_BOTTOM: usize = 12;

const START_PEERS: usize = 16;

const START_GAP: usize = 20;

const START_USED: usize = 21;

// A round: its number (4), peers (4).
pub const ROUND_BYTES: usize = 8;

const ROUND_PEERS: usize = 4;

// A remove: its round (4), whether a round is said from which stats are counted (1), that round (4).
pub const REMOVE_BYTES: usize = 9;

const REMOVE_FLAG: usize = 4;

const REMOVE_SINCE: usize = 5;

// A drop: its round.
pub const DROP_BYTES: usize = 4;

// A resolution without its links: id, status (1), marks (1), id of the top proof, evidence (4), numbers of includes (1) and witness (1),
// here the links, then `payload_len` (4) and `payload_bytes` (4).
pub const INFO_BYTES: usize = INFO_LINKS + 2 * COUNT_BYTES;

const INFO_STATUS: usize = ID_BYTES;

const INFO_MARKS: usize = 38;

const INFO_TOP_PROOF: usize = 39;

const INFO_EVIDENCE: usize = 76;

pub const INFO_INCLUDES: usize = 80;

pub const INFO_WITNESS: usize = 81;

const INFO_LINKS: usize = 82;

// A link: peer (1), digest (32).
pub const REF_BYTES: usize = REF_DIGEST_BYTE + DIGEST_BYTES;

const REF_DIGEST_BYTE: usize = 1;

// What adding a round takes.
#[derive(Clone, Copy)]
pub struct RoundFields {
    pub round: Round,
    pub peers: u32,
}

// What a remove takes.
#[derive(Clone, Copy)]
pub struct RemoveFields {
    pub round: Round,
    pub since: Option<Round>,
}

// The used author that a byte stands for.
fn used_of(byte: u32) -> Option<u32>
    ensures { result ≡ used_author_in byte }
{
    if byte == NOBODY {
        return None;
    }
    Some(byte)
}

// The fields of a start.
pub fn start_of(f: &[u8]) -> StartArgs
    requires { 22 ≤ length f.now }
    ensures { result ≡ start_args_in f.now }
{
    let genesis = number_of(f, 0);
    let commit_history_rounds = number_of(f, START_HISTORY);
    let deduplicate_rounds = number_of(f, START_DEDUPLICATE);
    let bottom = number_of(f, START_BOTTOM);
    let peers = number_of(f, START_PEERS);
    let gap = byte_of(f, START_GAP);
    let used = used_of(byte_of(f, START_USED));
    StartArgs {
        genesis: Round(genesis),
        commit_history_rounds,
        deduplicate_rounds,
        bottom: Round(bottom),
        peers,
        after_gap: gap != 0,
        used,
    }
}

// The fields of a round.
pub fn round_of(f: &[u8]) -> RoundFields
    requires { 8 ≤ length f.now }
    ensures { (result.round.0 ≡ number_at f.now 0 4) × (result.peers ≡ number_at f.now 4 4) }
{
    let round = number_of(f, 0);
    let peers = number_of(f, ROUND_PEERS);
    RoundFields {
        round: Round(round),
        peers,
    }
}

// The fields of a remove.
pub fn remove_of(f: &[u8]) -> RemoveFields
    requires { 9 ≤ length f.now }
    ensures { (result.round.0 ≡ number_at f.now 0 4) × (since_of result.since ≡ since_in f.now) }
{
    let round = number_of(f, 0);
    let flag = byte_of(f, REMOVE_FLAG);
    let since = number_of(f, REMOVE_SINCE);
    if flag == 0 {
        return RemoveFields {
            round: Round(round),
            since: None,
        };
    }
    RemoveFields {
        round: Round(round),
        since: Some(Round(since)),
    }
}

// The fields of a resolution, but for its id and links.
pub fn info_of(f: &[u8]) -> PointInfo
    requires { 90 + 33 * links_in f.now ≤ length f.now }
    ensures { result ≡ info_in f.now }
{
    let status = byte_of(f, INFO_STATUS);
    let marks = byte_of(f, INFO_MARKS);
    let top_proof = id_of(f, INFO_TOP_PROOF);
    let evidence = number_of(f, INFO_EVIDENCE);
    let includes = byte_of(f, INFO_INCLUDES);
    let witness = byte_of(f, INFO_WITNESS);
    let at = INFO_LINKS + REF_BYTES * (includes as usize + witness as usize);
    let payload_len = number_of(f, at);
    let payload_bytes = number_of(f, at + COUNT_BYTES);
    PointInfo {
        status,
        proof: marks % 2 == 1,
        trigger: marks / 2 % 2 == 1,
        cause: marks / 4 % 2 == 1,
        top_proof,
        evidence,
        includes: includes as usize,
        witness: witness as usize,
        payload_len,
        payload_bytes,
    }
}

// Writes the five words of the link at the offset.
fn put_link(f: &[u8], at: usize, refs: &mut [u64], to: usize)
    requires { (at + 33 ≤ length f.now) × (to + 5 ≤ length refs.old) }
    ensures { refs.new ≡ written refs.old to (link_words f.now at) }
{
    let peer = byte_of(f, at) as u64;
    let d = digest_words(f, at + REF_DIGEST_BYTE);
    refs[to + 0] = peer;
    refs[to + 1] = d[0];
    refs[to + 2] = d[1];
    refs[to + 3] = d[2];
    refs[to + 4] = d[3];
}

// Writes the links of a resolution, five words each, from the start of refs on.
pub fn refs_of(f: &[u8], refs: &mut [u64])
    requires f_in_bounds { 82 + 33 * links_in f.now ≤ length f.now }
    requires f_in_bounds_2 { links_in f.now * 5 ≤ length refs.old }
    ensures { refs.new ≡ written refs.old 0 (links_words f.now (links_in f.now)) }
{
    let includes = byte_of(f, INFO_INCLUDES) as usize;
    let witness = byte_of(f, INFO_WITNESS) as usize;
    for k in 0..includes + witness {
        put_link(f, INFO_LINKS + k * REF_BYTES, refs, k * REF_WORDS);
    }
}
