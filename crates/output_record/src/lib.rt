// Origin: models/output.rs (AnchorData), dag/commit/mod.rs (dequeue_anchor).
// What one committed anchor leaves: its record (record), what is told in it of each point (links) and the sums at its end (sums), its
// marks and the state after it (after).
#![tactic(auto)]

pub mod after;
pub mod links;
pub mod record;
pub mod sums;
