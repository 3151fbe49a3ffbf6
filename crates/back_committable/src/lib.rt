// Origin: dag/commit/back.rs (gather_uncommitted, committable_point).
// The tests of an anchor: the points of its history (fault), then the anchor (anchor).
#![tactic(auto)]

pub mod anchor;
pub mod fault;
