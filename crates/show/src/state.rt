// Origin: none.
// The lines of the state and of the points.
ghost use Rattle.std.specs.Prelude.{◌+◌, ◌*◌, ◌≤◌, length};
ghost use Rattle.show.specs.Points.{Readable};

use crate::text::{write, write_digest, write_number};
use commit_state::dag::Dag;
use commit_state::state::State;
use models::parts::OptionRound;
use models::place::{author, round_word};
use models::tables::{KEY_DIGEST, KEY_WORDS};
use tables_test::counts_as_started;

// The last proof's round.
fn write_last_proof(last_committed_proof: OptionRound) {
    if last_committed_proof.0 == 0 {
        write(b" lastproof none");
    } else {
        write_number(b" lastproof ", (last_committed_proof.0 - 1) as u64);
    }
}

// What the gap flag says of the question: not waited for, waited for, put.
fn write_emit(gap: u32) {
    if gap == 0 {
        write(b" emit none\n");
    } else if gap == 1 {
        write(b" emit false\n");
    } else {
        write(b" emit true\n");
    }
}

// The line of a state that is started.
fn write_rounds(s: State) {
    let bottom = s.bottom;
    let top = s.top;
    let full = s.full_history_bottom;
    let first = s.first_executable;
    write_number(b"state bottom ", bottom.0 as u64);
    write_number(b" top ", top.0 as u64);
    let last_committed_proof = s.last_committed_proof;
    write_last_proof(last_committed_proof);
    write_number(b" fullbottom ", full.0 as u64);
    write_number(b" first ", first.0 as u64);
    write_emit(s.emit_first_after_gap);
}

// The line of the point at place q with its certificate word.
fn write_point(keys: &[u64], q: usize, word: u64)
    requires { q * 8 + 8 ≤ length keys.now }
{
    let d = q * KEY_WORDS + KEY_DIGEST;
    write_number(b"p ", round_word(keys, q));
    write_number(b".", author(keys, q));
    write(b".");
    write_digest(keys[d], keys[d + 1], keys[d + 2], keys[d + 3]);
    write(b" ");
    let _all = io::print_hex(1, word, 4);
    write(b"\n");
}

// The lines of the points, by rising round, then digest: so the order holds their places.
fn write_points(keys: &[u64], certs: &[u64], order: &[u64], count: usize)
    requires { Readable keys.now certs.now order.now count }
{
    for &place in &order[..count] {
        let q = laws::slot(place);
        let word = certs[q];
        write_point(keys, q, word);
    }
}

// The lines of the state and its points; tables that don't count as started have none.
pub fn write_state(s: State, keys: &[u64], links: &[u64], certs: &[u64], order: &[u64]) {
    let dag = Dag {
        state: &s,
        keys,
        links,
        certs,
        order,
    };
    if counts_as_started(&dag) {
        write_rounds(s);
        write_points(keys, certs, order, s.count);
    } else {
        write(b"state none\n");
    }
}
