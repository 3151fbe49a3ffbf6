// Origin: none.
// Plays recorded runs from standard input, each on tables of zeros with 20 places and an answer buffer of 4,096 bytes. A run is its
// length (4 bytes, at most 65,536) and that many bytes of recorded calls.
#![tactic(auto)]

ghost use Rattle.std.specs.Prelude.{◌≤◌, length};

use commit_state::back::unstarted;
use models::output::COUNT_BYTES;
use models::tables::{KEY_WORDS, LINK_WORDS};
use play_input::part::play_part;
use play_input::{ANSWER_BYTES, LINES_BYTES, PLACES};
use show::state::write_state;
use show::text::{write, write_broken, write_number};
use trace::bytes::number_of;

// What stands next in the input: nothing, a run that is cut short or too long, or a run.
#[derive(Clone, Copy)]
enum Next {
    End,
    Cut,
    Run,
}

// What stands next, and the number of its bytes, which are read if it is a run.
#[derive(Clone, Copy)]
struct Found {
    next: Next,
    n: usize,
}

// Reads the length of a run.
fn read_length() -> Found {
    let mut head = [0u8; COUNT_BYTES];
    let got = io::read_full(0, &mut head);
    if got == 0 {
        return Found {
            next: Next::End,
            n: 0,
        };
    }
    if got < COUNT_BYTES {
        return Found {
            next: Next::Cut,
            n: 0,
        };
    }
    let n = number_of(&head, 0) as usize;
    Found { next: Next::Run, n }
}

// Reads the bytes of a run.
fn read_run(input: &mut [u8]) -> Found
    ensures { result.n ≤ length input.new }
{
    let cut = Found {
        next: Next::Cut,
        n: 0,
    };
    let found = read_length();
    let n = found.n;
    if input.len() < n {
        return cut;
    }
    let got = io::read_full(0, &mut input[..n]);
    if got < n {
        return cut;
    }
    found
}

// Plays a run.
fn play_run(bytes: &[u8]) {
    let mut keys = [0u64; PLACES * KEY_WORDS];
    let mut links = [0u64; PLACES * LINK_WORDS];
    let mut certs = [0u64; PLACES];
    let mut order = [0u64; PLACES];
    let mut answer = [0u8; ANSWER_BYTES];
    let mut out = [0u8; LINES_BYTES];
    let part = play_part(
        unstarted(),
        &mut keys,
        &mut links,
        &mut certs,
        &mut order,
        &mut answer,
        bytes,
        &mut out,
        true,
        true,
    );
    let s = part.state;
    write_broken(part.code, part.at as u64);
    write_state(s, &keys, &links, &certs, &order);
}

// The line before a run.
fn write_head(name: &[u8], number: u64) {
    write_number(name, number);
    write(b"\n");
}

// Plays the next run, if there is one, and says so.
fn play_next(input: &mut [u8], number: u64) -> bool {
    let found = read_run(input);
    let next = found.next;
    let n = found.n;
    match next {
        Next::End => false,
        Next::Cut => {
            write_head(b"cut part ", number);
            false
        }
        Next::Run => {
            write_head(b"part ", number);
            play_run(&input[..n]);
            true
        }
    }
}

// Nothing says that the input ends, so the runs are counted, to a number that no input reaches.
fn main() {
    let mut input = io::large_buffer();
    for number in 0..u64::MAX {
        if !play_next(&mut input, number) {
            break;
        }
    }
}
