// Origin: none.
// The lines of a remove's peers and events, from an answer buffer.
ghost use Rattle.std.specs.Prelude.{◌+◌, ◌*◌, ◌≤◌, length};

use crate::anchors::{write_id, write_ids};
use crate::text::{write, write_digest, write_number};
use commit_answer::answer::Answer;
use models::output::{
    COUNT_BYTES, DIGEST_BYTES, EVENT_BLAMED, EVENT_HEAD_BYTES, ID_BYTES, PEER_BYTES, SINGLE_BYTES,
    SINGLE_ID,
};
use stats::MempoolPeerCounters;
use trace::bytes::{byte_of, digest_words, id_of, number_of};
use trace::events::{Event, event_of};
use trace::peer_stats::{PeerStats, peer_of};

// The nine counters.
fn write_counters(cumulative: MempoolPeerCounters) {
    for count in cumulative.counts() {
        write_number(b" ", count as u64);
    }
}

fn write_stats(stats: PeerStats) {
    let first = stats.first_round;
    let last = stats.last_round;
    write_number(b"peer ", stats.peer as u64);
    write_number(b" first ", first.0 as u64);
    write_number(b" last ", last.0 as u64);
    write_counters(stats.cumulative);
    write_number(b" score ", stats.score as u64);
    write(b"\n");
}

// The line of the peer at the offset. Says where the next one begins: the end of the bytes, if no whole one stands there.
fn write_peer(b: &[u8], at: usize) -> usize
    requires { at ≤ length b.now }
    ensures { result ≤ length b.now }
{
    if b.len() - at < PEER_BYTES {
        return b.len();
    }
    write_stats(peer_of(b, at));
    at + PEER_BYTES
}

// The lines of the peers. Says where they end.
fn write_peers(b: &[u8]) -> usize
    ensures { result ≤ length b.now }
{
    if b.len() == 0 {
        return 0;
    }
    let n = byte_of(b, 0);
    let mut at: usize = 1;
    for _ in 0..n {
        at = write_peer(b, at);
    }
    at
}

// The n digests from the offset on.
fn write_digests(b: &[u8], at: usize, n: usize)
    requires { at + n * 32 ≤ length b.now }
{
    for i in 0..n {
        let words = digest_words(b, at + i * DIGEST_BYTES);
        write(b" ");
        write_digest(words[0], words[1], words[2], words[3]);
    }
}

// The line of a single id.
fn write_single(b: &[u8], at: usize, kind: u32) -> usize
    requires { at + 38 ≤ length b.now }
    ensures { result ≤ length b.now }
{
    write_number(b"event ", kind as u64);
    let id = id_of(b, at + SINGLE_ID);
    write_id(b" ", id, b".");
    write(b"\n");
    at + SINGLE_BYTES
}

// The line of n digests.
fn write_equivocated(b: &[u8], at: usize, author: u32, round: u32, n: usize) -> usize
    requires { at + 10 + n * 32 ≤ length b.now }
    ensures { result ≤ length b.now }
{
    write_number(b"event 4 ", author as u64);
    write_number(b" ", round as u64);
    write_digests(b, at + EVENT_HEAD_BYTES, n);
    write(b"\n");
    at + EVENT_HEAD_BYTES + n * DIGEST_BYTES
}

// The line of x blamed ids and y proofs.
fn write_no_inclusion(b: &[u8], at: usize, signer: u32, x: usize, y: usize) -> usize
    requires { at + 10 + (x + y) * 37 ≤ length b.now }
    ensures { result ≤ length b.now }
{
    write_number(b"event 5 ", signer as u64);
    write_ids(b, at + EVENT_BLAMED, x);
    write(b" |");
    write_ids(b, at + EVENT_HEAD_BYTES + x * ID_BYTES, y);
    write(b"\n");
    at + EVENT_HEAD_BYTES + (x + y) * ID_BYTES
}

// The line of the event at the offset. Says where the next one begins: the end of the bytes, if no whole one stands there.
fn write_event(b: &[u8], at: usize) -> usize
    ensures { result ≤ length b.now }
{
    match event_of(b, at) {
        Some(Event::Single(kind)) => write_single(b, at, kind),
        Some(
            Event::Equivocated {
                author,
                round,
                count,
            },
        ) => write_equivocated(b, at, author, round.0, count),
        Some(
            Event::EvidenceNoInclusion {
                signer,
                blamed,
                proofs,
            },
        ) => write_no_inclusion(b, at, signer, blamed, proofs),
        None => b.len(),
    }
}

// The lines of the events, whose number stands at the offset.
fn write_events(b: &[u8], at: usize)
    requires { at ≤ length b.now }
{
    if b.len() - at < COUNT_BYTES {
        return;
    }
    let n = number_of(b, at);
    let mut next = at + COUNT_BYTES;
    for _ in 0..n {
        next = write_event(b, next);
        if next == b.len() {
            break;
        }
    }
}

// The lines of what a remove answered; one that is refused has none.
pub fn write_removal(b: &[u8], answer: Answer) {
    match answer {
        Answer::Done => {
            let at = write_peers(b);
            write_events(b, at);
        }
        _ => {}
    }
}
