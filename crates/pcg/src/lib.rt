// Origin: rand_pcg's src/pcg128.rs (Lcg128Xsl64).
// The generator PCG XSL RR 128/64 (pcg), over numbers of 128 bits in two halves (wide).
#![tactic(auto)]

pub mod pcg;
pub mod wide;
