// Origin: none.
// Draws of a few digests, a line each, and products modulo 2^128.
#![tactic(auto)]

use models::parts::Digest;
use models::tables::DIGEST_WORDS;
use pcg::pcg::{Pcg, draw, seed};
use pcg::wide::{Wide, product, wrapping_product};

const MAX: u64 = 0xFFFF_FFFF_FFFF_FFFF;

fn write(text: &[u8]) {
    let _all = io::write_all(1, text);
}

fn write_word(n: u64) {
    let _all = io::print_hex(1, n, 16);
}

fn write_wide(n: Wide) {
    write_word(n.high);
    write_word(n.low);
    write(b"\n");
}

// The first state and the increment.
fn write_seed(digest: Digest) {
    let generator = seed(digest);
    let state = generator.state;
    let increment = generator.increment;
    write_wide(state);
    write_wide(increment);
}

// One draw, and the generator to draw the next one from.
fn write_draw(generator: Pcg) -> Pcg {
    let drawn = draw(generator);
    write(b" ");
    write_word(drawn.value);
    let next = drawn.next;
    next
}

// The first n draws.
fn write_draws(digest: Digest, n: u32) {
    let mut generator = seed(digest);
    for _ in 0..n {
        generator = write_draw(generator);
    }
    write(b"\n");
}

// A digest of a first byte, a byte 16 and a last byte.
fn digest_of(first: u64, middle: u64, last: u64) -> Digest {
    Digest([first << 56, 0, middle << 56, last])
}

fn seeds() {
    write_seed(Digest([0; DIGEST_WORDS]));
    write_seed(Digest([MAX; DIGEST_WORDS]));
}

fn draws() {
    write_draws(Digest([0; DIGEST_WORDS]), 4);
    write_draws(Digest([MAX; DIGEST_WORDS]), 4);
    write_draws(
        Digest([
            0x0102_0304_0506_0708,
            0x090A_0B0C_0D0E_0F10,
            0x1112_1314_1516_1718,
            0x191A_1B1C_1D1E_1F20,
        ]),
        4,
    );
    write_draws(digest_of(0x2A, 0x6D, 0), 6);
    write_draws(digest_of(0x2A, 0x6C, 0), 6);
}

fn more_draws() {
    write_draws(digest_of(0, 0, 1), 2);
    write_draws(digest_of(1, 0, 0), 2);
    write_draws(digest_of(0x1E, 0, 0), 1);
    write_draws(digest_of(0x13, 0, 0), 1);
}

fn write_product(a: Wide, b: Wide) {
    write_wide(wrapping_product(a, b));
}

fn products() {
    let most = Wide {
        high: MAX,
        low: MAX,
    };
    write_product(most, most);
    write_wide(product(MAX, MAX));
    write_product(Wide { high: 1, low: 1 }, Wide { high: 0, low: MAX });
    write_product(
        Wide {
            high: 0,
            low: 4294967296,
        },
        Wide {
            high: 4294967296,
            low: 0,
        },
    );
    let multiplier = Wide {
        high: 0x2360_ED05_1FC6_5DA4,
        low: 0x4385_DF64_9FCC_F645,
    };
    write_product(multiplier, multiplier);
}

fn main() {
    seeds();
    draws();
    more_draws();
    products();
}
