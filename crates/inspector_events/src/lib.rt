// Origin: dag/commit/inspector.rs (take_events).
// The events of remove as bytes, written or only counted (emitted), and those of one author's points at a round (author).
#![tactic(auto)]

pub mod author;
pub mod emitted;
