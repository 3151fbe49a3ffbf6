// Origin: dag/commit/back.rs (DagBack), dag/commit/mod.rs (Committer).
// What of the store goes by value: round records, numbers, the inspector's memory (state), and what the calls do to it (back). With the lent
// tables it is read as one (dag).
#![tactic(auto)]

pub mod back;
pub mod dag;
pub mod state;
