// Origin: none.
// The lines of an outlook's anchors, from an answer buffer.
ghost use Rattle.std.specs.Prelude.{◌+◌, ◌*◌, ◌≤◌, length};

use crate::anchors::write_id;
use crate::text::{write, write_number};
use models::output::{COUNT_BYTES, LOOK_BYTES, LOOK_POINTS};
use models::parts::Round;
use trace::bytes::{id_of, number_of};

// Which rounds an anchor's history has: above genesis, at most so many below the anchor, none below the bottom.
#[derive(Clone, Copy)]
pub struct Reach {
    pub genesis: Round,
    pub rounds: u32,
    pub bottom: Round,
}

// How many rounds an outlook counts for an anchor of this round: down to the limit, or the bottom if that is higher.
fn rounds_of(reach: Reach, round: Round) -> u32 {
    let genesis = reach.genesis;
    let bottom = reach.bottom;
    let low = round.minus(reach.rounds);
    let lowest = low.max(bottom);
    if lowest.0 <= genesis.0 {
        return round.minus(genesis.0).0;
    }
    if round.0 < lowest.0 {
        return 0;
    }
    let below = lowest.minus(1);
    round.minus(below.0).0
}

// The n counts from the offset on.
fn write_counts(b: &[u8], at: usize, n: usize)
    requires { at + n * 4 ≤ length b.now }
{
    for i in 0..n {
        let count = number_of(b, at + i * COUNT_BYTES);
        write_number(b" ", count as u64);
    }
}

// The line of the anchor at the offset. Says where the next one begins: the end of the bytes, if no whole one stands there.
fn write_look(b: &[u8], at: usize, reach: Reach) -> usize
    requires { at ≤ length b.now }
    ensures { result ≤ length b.now }
{
    let left = b.len() - at;
    if left < LOOK_BYTES {
        return b.len();
    }
    let anchor = id_of(b, at);
    let points = number_of(b, at + LOOK_POINTS);
    let n = rounds_of(reach, anchor.round) as usize;
    if (left - LOOK_BYTES) / COUNT_BYTES < n {
        return b.len();
    }
    write_id(b"outlook ", anchor, b" ");
    write_number(b" ", points as u64);
    write(b" linked");
    write_counts(b, at + LOOK_BYTES, n);
    write(b"\n");
    at + LOOK_BYTES + n * COUNT_BYTES
}

// The lines of the first n anchors.
pub fn write_looks(b: &[u8], n: u32, reach: Reach) {
    let mut at: usize = 0;
    for _ in 0..n {
        at = write_look(b, at, reach);
    }
}
