// Origin: dag/commit/mod.rs (the results of the calls).
// The answers of the committer's calls, and (in specs) the record of what a call has done.
#![tactic(auto)]

pub mod answer;
