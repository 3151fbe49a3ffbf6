// Origin: dag/commit/mod.rs (commit, dequeue_anchor).
// The anchors of a chain (all), committed one after another (one).
#![tactic(auto)]

pub mod all;
pub mod one;
