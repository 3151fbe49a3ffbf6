// Origin: dag/commit/mod.rs (commit, dequeue_anchor).
// Added by document 01, 'Outlook': what a trigger's anchors would yield, without a change.
#![tactic(auto)]

pub mod chain;
pub mod look;
pub mod outlook;
pub mod take;
