// Origin: none.
// Answers and arguments as they cross the C boundary.
#![tactic(auto)]

pub mod args;
pub mod reply;
