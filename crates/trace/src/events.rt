// Origin: moderator/journal/event.rs (JournalDagEvent).
// The events that a remove reports, read from the bytes of an answer buffer.
ghost use Rattle.std.specs.Prelude.{◌≡◌, ◌≤◌, length};
ghost use Rattle.trace.specs.Events.{single_in, equivocated_in, no_inclusion_in, event_in};

use crate::bytes::{byte_of, number_of};
use models::output::{
    DIGEST_BYTES, EVENT_BLAMED, EVENT_BLAMED_COUNT, EVENT_DIGEST_COUNT, EVENT_HEAD_BYTES,
    EVENT_PEER, EVENT_ROUND, ID_BYTES, SINGLE_BYTES,
};
use models::parts::Round;

// What stands before the digests or ids of an event that is whole.
#[derive(Clone, Copy)]
pub enum Event {
    // Its kind, 1 to 3; its id follows, from byte 1 on.
    Single(u32),
    // Kind 4: as many digests follow, from byte 10 on.
    Equivocated {
        author: u32,
        round: Round,
        count: usize,
    },
    // Kind 5: as many blamed ids follow, from byte 6 on, then the number of proofs (4 bytes) and their ids.
    EvidenceNoInclusion {
        signer: u32,
        blamed: usize,
        proofs: usize,
    },
}

// The event of this kind, 1 to 3, at the offset; `None` if it is cut, as below.
fn single_of(b: &[u8], at: usize, kind: u32) -> Option<Event>
    requires { at ≤ length b.now }
    ensures { result ≡ single_in b.now at kind }
{
    if b.len() - at < SINGLE_BYTES {
        return None;
    }
    Some(Event::Single(kind))
}

// The event of kind 4 at the offset.
fn equivocated_of(b: &[u8], at: usize) -> Option<Event>
    requires { at ≤ length b.now }
    ensures { result ≡ equivocated_in b.now at }
{
    let left = b.len() - at;
    if left < EVENT_HEAD_BYTES {
        return None;
    }
    let author = byte_of(b, at + EVENT_PEER);
    let round = number_of(b, at + EVENT_ROUND);
    let count = number_of(b, at + EVENT_DIGEST_COUNT) as usize;
    if (left - EVENT_HEAD_BYTES) / DIGEST_BYTES < count {
        return None;
    }
    Some(Event::Equivocated {
        author,
        round: Round(round),
        count,
    })
}

// The event of kind 5 at the offset.
fn no_inclusion_of(b: &[u8], at: usize) -> Option<Event>
    requires { at ≤ length b.now }
    ensures { result ≡ no_inclusion_in b.now at }
{
    let left = b.len() - at;
    if left < EVENT_HEAD_BYTES {
        return None;
    }
    let signer = byte_of(b, at + EVENT_PEER);
    let blamed = number_of(b, at + EVENT_BLAMED_COUNT) as usize;
    if (left - EVENT_HEAD_BYTES) / ID_BYTES < blamed {
        return None;
    }
    let proofs = number_of(b, at + EVENT_BLAMED + blamed * ID_BYTES) as usize;
    if (left - EVENT_HEAD_BYTES) / ID_BYTES - blamed < proofs {
        return None;
    }
    Some(Event::EvidenceNoInclusion {
        signer,
        blamed,
        proofs,
    })
}

// The event at the offset; `None` for what is none of these kinds, or cut.
pub fn event_of(b: &[u8], at: usize) -> Option<Event>
    ensures { result ≡ event_in b.now at }
{
    if b.len() <= at {
        return None;
    }
    let kind = byte_of(b, at);
    match kind {
        1 => single_of(b, at, 1),
        2 => single_of(b, at, 2),
        3 => single_of(b, at, 3),
        4 => equivocated_of(b, at),
        5 => no_inclusion_of(b, at),
        _ => None,
    }
}
