// Origin: dag/commit/inspector.rs, models/stats.rs (MempoolPeerCounters).
// The points of one round: the tests of one (tests), how many of each author pass (counts), and the counters that follow (counters).
#![tactic(auto)]

pub mod counters;
pub mod counts;
pub mod tests;
