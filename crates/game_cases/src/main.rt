// Origin: none.
// Solved games of keepers and spoilers, a line each, and games that are refused.
#![tactic(auto)]

use game::{Reach, reach_of};
use models::tables::{PEER_LAST, PEER_SLOTS};

const ALL: u32 = 0xFFFF_FFFF;

fn write(text: &[u8]) {
    let _all = io::write_all(1, text);
}

fn write_number(n: u32) {
    let _all = io::print_decimal(1, n as u64);
    write(b" ");
}

// F forced, P prevented, else the refusal's number.
fn write_reach(answer: Reach) {
    match answer {
        Reach::Forced => {
            write(b"F");
        }
        Reach::Prevented => {
            write(b"P");
        }
        Reach::Refused => {
            write_number(answer.refusal());
        }
    }
}

// The peers 0 to n - 1.
fn first(n: u32) -> u32 {
    if n == 0 {
        return 0;
    }
    if PEER_LAST < n {
        return ALL;
    }
    ALL >> (PEER_SLOTS - n)
}

// n peers, the first k of them keepers, the first r reaching: distances 1, 2, 3 and 255 to an anchor of that author.
fn write_author(n: u32, k: u32, q: u32, r: u32, author: u32) {
    let peers = first(n);
    let keepers = first(k);
    let reach = first(r);
    write(b" ");
    write_reach(reach_of(peers, keepers, q, reach, author, 1));
    write_reach(reach_of(peers, keepers, q, reach, author, 2));
    write_reach(reach_of(peers, keepers, q, reach, author, 3));
    write_reach(reach_of(peers, keepers, q, reach, author, 255));
}

// The numbers; then, where there are keepers, an author who keeps, and where there are spoilers, one who spoils.
fn write_games(n: u32, k: u32, q: u32, r: u32) {
    write_number(n);
    write_number(k);
    write_number(q);
    write_number(r);
    if 0 < k {
        write(b" keeps");
        write_author(n, k, q, r, 0);
    }
    if k < n {
        write(b" spoils");
        write_author(n, k, q, r, n - 1);
    }
    write(b"\n");
}

fn games_of_few() {
    write_games(1, 1, 1, 0);
    write_games(1, 1, 1, 1);
    write_games(1, 0, 1, 0);
    write_games(1, 0, 1, 1);
    write_games(2, 1, 1, 1);
    write_games(2, 1, 1, 2);
}

fn games_of_three() {
    write_games(3, 2, 2, 1);
    write_games(3, 2, 2, 2);
    write_games(3, 1, 2, 1);
    write_games(3, 1, 2, 2);
    write_games(3, 2, 3, 1);
}

fn games_of_four() {
    write_games(4, 2, 3, 0);
    write_games(4, 2, 3, 1);
    write_games(4, 2, 3, 2);
    write_games(4, 3, 2, 1);
    write_games(4, 3, 2, 2);
    write_games(4, 3, 2, 3);
}

fn more_games_of_four() {
    write_games(4, 3, 1, 1);
    write_games(4, 3, 1, 3);
    write_games(4, 3, 1, 4);
    write_games(4, 0, 3, 1);
    write_games(4, 0, 3, 2);
}

fn last_games_of_four() {
    write_games(4, 2, 2, 1);
    write_games(4, 2, 2, 2);
    write_games(4, 2, 2, 3);
    write_games(4, 1, 4, 1);
}

fn games_of_all() {
    write_games(32, 11, 22, 1);
    write_games(32, 10, 22, 1);
    write_games(32, 10, 22, 11);
    write_games(32, 10, 22, 10);
}

// The peers 0 and 31, of whom 31 keeps and 0 reaches.
fn games_of_ends() {
    let ends = 0x8000_0001;
    let keepers = 0x8000_0000;
    write_reach(reach_of(ends, keepers, 1, 1, 31, 1));
    write_reach(reach_of(ends, keepers, 1, 1, 0, 1));
    write(b"\n");
}

// No peers; q 0, and above the number of peers; authors above 31, and one that is no peer.
fn refused_numbers() {
    write_reach(reach_of(0, 0, 1, 0, 0, 1));
    write_reach(reach_of(15, 3, 0, 1, 0, 1));
    write_reach(reach_of(15, 3, 5, 1, 0, 1));
    write_reach(reach_of(15, 3, 3, 1, 32, 1));
    write_reach(reach_of(15, 3, 3, 1, ALL, 1));
    write_reach(reach_of(15, 3, 3, 1, 4, 1));
    write(b"\n");
}

// A keeper, and a reaching peer, outside the peers; distances 0, 256 and the largest.
fn refused_sets() {
    write_reach(reach_of(15, 16, 3, 1, 0, 1));
    write_reach(reach_of(15, 3, 3, 16, 0, 1));
    write_reach(reach_of(15, 3, 3, 1, 0, 0));
    write_reach(reach_of(15, 3, 3, 1, 0, 256));
    write_reach(reach_of(15, 3, 3, 1, 0, ALL));
    write(b"\n");
}

fn main() {
    games_of_few();
    games_of_three();
    games_of_four();
    more_games_of_four();
    last_games_of_four();
    games_of_all();
    games_of_ends();
    refused_numbers();
    refused_sets();
}
