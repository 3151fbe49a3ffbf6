// Origin: none.
// Plays the trace of standard input and writes a line for each anchor record and each refusal, then one for the rounds.
#![tactic(auto)]

use lines::end::put_end;
use models::tables::{KEY_WORDS, LINK_WORDS};
use play_input::input::play_input;
use play_input::{ANSWER_BYTES, PLACES};

fn main() {
    let mut keys = [0u64; PLACES * KEY_WORDS];
    let mut links = [0u64; PLACES * LINK_WORDS];
    let mut certs = [0u64; PLACES];
    let mut order = [0u64; PLACES];
    let mut answer = [0u8; ANSWER_BYTES];
    let mut input = io::large_buffer();
    let mut out = io::large_buffer();
    let turn = play_input(
        &mut keys,
        &mut links,
        &mut certs,
        &mut order,
        &mut answer,
        &mut input,
        &mut out,
        false,
    );
    let s = turn.state;
    let n = put_end(turn.code, s, &keys, &links, &certs, &order, &mut out);
    let _all = io::write_all(1, &out[..n]);
}
