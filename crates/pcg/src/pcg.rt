// Origin: rand_pcg's src/pcg128.rs (Lcg128Xsl64).
ghost use Rattle.std.specs.Prelude.{◌≡◌, ◌<◌};
ghost use Rattle.laws.specs.Bytes.{be};
ghost use Rattle.spec.specs.Pcg.{stepped, rotated_right, output, draw_of, le, seeded};
ghost use Rattle.models.specs.Digest.{digest_at};
ghost use Rattle.pcg.specs.Wide.{number_of};
ghost use Rattle.pcg.specs.Generator.{generator_of};

use crate::wide::{Wide, wrapping_product, wrapping_sum};
use models::parts::Digest;

const MULTIPLIER_HIGH: u64 = 0x2360_ED05_1FC6_5DA4;

const MULTIPLIER_LOW: u64 = 0x4385_DF64_9FCC_F645;

#[repr(C)]
#[derive(Clone, Copy)]
pub struct Pcg {
    pub state: Wide,
    pub increment: Wide,
}

// A draw, and the generator to draw the next one from.
#[repr(C)]
#[derive(Clone, Copy)]
pub struct Drawn {
    pub value: u64,
    pub next: Pcg,
}

// One step: times the multiplier, plus the increment.
fn step(generator: Pcg) -> Pcg
    ensures { generator_of result ≡ stepped (generator_of generator) }
{
    let state = generator.state;
    let increment = generator.increment;
    let multiplier = Wide {
        high: MULTIPLIER_HIGH,
        low: MULTIPLIER_LOW,
    };
    let multiplied = wrapping_product(state, multiplier);
    let next = wrapping_sum(multiplied, increment);
    Pcg {
        state: next,
        increment: increment,
    }
}

// The word rotated right by k bits.
fn rotate_right(x: u64, k: u32) -> u64
    requires { k < 64 }
    ensures { result ≡ rotated_right k x }
{
    x.rotate_right(k)
}

// XSL RR: the halves' exclusive or, rotated right by the top 6 bits.
fn output(state: Wide) -> u64
    ensures { result ≡ output (number_of state) }
{
    rotate_right(state.high ^ state.low, (state.high >> 58) as u32)
}

// The word with its eight bytes in the other order.
fn swap_bytes(word: u64) -> u64
    ensures { result ≡ le (be 8 word) }
{
    word.swap_bytes()
}

// The generator that a digest seeds: state low, state high, increment low, increment high.
pub fn seed(digest: Digest) -> Pcg
    ensures { generator_of result ≡ seeded (digest_at digest.0 0) }
{
    let words = digest.0;
    let state = Wide {
        high: swap_bytes(words[1]),
        low: swap_bytes(words[0]),
    };
    let increment = Wide {
        high: swap_bytes(words[3]),
        low: swap_bytes(words[2]) | 1,
    };
    let first = wrapping_sum(state, increment);
    step(Pcg {
        state: first,
        increment: increment,
    })
}

// One draw: a step, and the output of the new state.
pub fn draw(generator: Pcg) -> Drawn
    ensures { (result.value ≡ draw_of (generator_of generator)) × (generator_of result.next ≡ stepped (generator_of generator)) }
{
    let next = step(generator);
    let state = next.state;
    Drawn {
        value: output(state),
        next: next,
    }
}
