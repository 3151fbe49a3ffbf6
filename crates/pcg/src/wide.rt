// Origin: none (rand_pcg's src/pcg128.rs has u128).
// Numbers of 128 bits as two halves, with a product and a sum that wrap.
ghost use Rattle.std.specs.Prelude.{◌≡◌, ◌+◌, ◌-◌, ◌*◌, ◌%◌, ◌^◌, ◌<◌, ◌≤◌};
ghost use Rattle.pcg.specs.Wide.{number_of};

use std::num::wrapping_add_u64;

#[repr(C)]
#[derive(Clone, Copy)]
pub struct Wide {
    pub high: u64,
    pub low: u64,
}

// A limb has 32 bits.
const BASE: u64 = 4294967296;

// The product of two limbs fits a word.
fn limb_product(x: u64, y: u64) -> u64
    requires { (x < 2 ^ 32) × (y < 2 ^ 32) }
    ensures { (result ≡ x * y) × (result ≤ (2 ^ 32 - 1) * (2 ^ 32 - 1)) }
{
    x * y
}

// The product of two words, column by column as by hand, to the base 2^32.
pub fn product(u: u64, v: u64) -> Wide
    ensures { number_of result ≡ u * v }
{
    let u1 = u / BASE;
    let u0 = u % BASE;
    let v1 = v / BASE;
    let v0 = v % BASE;
    let lowest = limb_product(u0, v0);
    let middle = limb_product(u1, v0) + lowest / BASE;
    let next = limb_product(u0, v1) + middle % BASE;
    let highest = limb_product(u1, v1);
    Wide {
        high: highest + middle / BASE + next / BASE,
        low: next % BASE * BASE + lowest % BASE,
    }
}

// The product modulo 2^128. Of the products across the halves only the low words count.
pub fn wrapping_product(a: Wide, b: Wide) -> Wide
    ensures { number_of result ≡ number_of a * number_of b % 2 ^ 128 }
{
    let lows = product(a.low, b.low);
    let left = product(a.high, b.low);
    let right = product(a.low, b.high);
    let across = wrapping_add_u64(left.low, right.low);
    Wide {
        high: wrapping_add_u64(lows.high, across),
        low: lows.low,
    }
}

// The sum modulo 2^128. The low halves carry exactly if their sum wraps.
pub fn wrapping_sum(a: Wide, b: Wide) -> Wide
    ensures { number_of result ≡ (number_of a + number_of b) % 2 ^ 128 }
{
    let low = wrapping_add_u64(a.low, b.low);
    let high = wrapping_add_u64(a.high, b.high);
    if low < a.low {
        Wide {
            high: wrapping_add_u64(high, 1),
            low: low,
        }
    } else {
        Wide {
            high: high,
            low: low,
        }
    }
}
