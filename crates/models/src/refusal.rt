// Origin: dag/commit/mod.rs (HistoryConflict).
// What a call is refused with, by document 01's numbers, and what a record of a trace is refused with, by 02's.
ghost use Rattle.std.specs.Prelude.{◌≡◌};
ghost use Rattle.spec.specs.Calls.{number_of};
ghost use Rattle.models.specs.Refusal.{refusal_of, not_valid};

use crate::cert::Cert;
use crate::parts::Round;

// What a start takes is out of its range.
pub const BAD_START: u32 = 1;

// Not started, or started twice.
pub const WRONG_PHASE: u32 = 2;

// A round beyond the next one, or above the last that there can be.
pub const ROUND_AHEAD: u32 = 3;

// 512 rounds, or a table without a free place.
pub const FULL: u32 = 4;

// The author is no peer of the round.
pub const NOT_A_PEER: u32 = 5;

// The round isn't retained.
pub const NOT_RETAINED: u32 = 6;

// The digest is named in its round.
pub const DIGEST_NAMED: u32 = 7;

// The author has four digests in this round.
pub const FIFTH_DIGEST: u32 = 8;

// The id isn't named, or the trigger is unresolved.
pub const NOT_NAMED: u32 = 9;

pub const RESOLVED: u32 = 10;

// What a resolution gives isn't well-formed.
pub const BAD_INFO: u32 = 11;

// A link into a retained round leads to no named point.
pub const LINK_NOT_NAMED: u32 = 12;

pub const CONFLICT: u32 = 13;

// A needed point is named and isn't resolved.
pub const POINT_MISSING: u32 = 14;

// A needed point was never named.
pub const NEVER_NAMED: u32 = 25;

// A needed point is neither usable nor certified.
pub const UNUSABLE: u32 = 15;

// A trigger or a proof without a previous point, or a point that is not the proof sought.
pub const BROKEN_CHAIN: u32 = 16;

// Rounds of a history are missing.
pub const ROUNDS_MISSING: u32 = 17;

// A point of a history has height 0.
pub const NOT_CERTIFIED: u32 = 18;

// The oldest anchor's top proof is above the walk's lowest round.
pub const CHAIN_ENDS_EARLY: u32 = 19;

// The gap question isn't put.
pub const GAP_QUESTION: u32 = 20;

// The answer is larger than the buffer left.
pub const NO_ROOM: u32 = 21;

pub const AT_GENESIS: u32 = 22;

// A remove above the last anchor handed out.
pub const REMOVE_AHEAD: u32 = 23;

// A place list that isn't each place from 0 once.
pub const BAD_LISTS: u32 = 24;

// A record of a trace that is cut short or of wrong length, or a call that fits no record.
pub const BAD_RECORD: u32 = 26;

// A record of a trace of an unknown version or kind.
pub const UNKNOWN_RECORD: u32 = 27;

// Document 01's number of a refusal; 13, the history conflict, holds its round. A number and no variant for each: `refusal_of_from` says that
// every number is a refusal's, and C is given the number as it is.
#[derive(Clone, Copy)]
pub enum Refusal {
    Number(u32),
    Conflict(Round),
}

// Document 01's number alone.
pub fn refusal_number(why: Refusal) -> u32
    ensures { result ≡ number_of (refusal_of why) }
{
    match why {
        Refusal::Number(n) => n,
        Refusal::Conflict(_round) => CONFLICT,
    }
}

// What a point that isn't valid is refused with: a history conflict in its round if it is certified.
pub fn not_valid(cert: Cert, round: Round) -> Result<(), Refusal>
    ensures { result ≡ not_valid cert.0 round.0 }
{
    if cert.is_certified() {
        return Err(Refusal::Conflict(round));
    }
    Err(Refusal::Number(UNUSABLE))
}
