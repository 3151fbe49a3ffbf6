// Origin: none.
// The C boundary: one function for each call, over the proved calls, and the sum of counters. Answers cross as numbers. Beside them the
// generator, the game of keepers and spoilers, calls written as records of a trace, and the library's version.
#![tactic(auto)]

pub mod commit;
pub mod counters;
pub mod generator;
pub mod points;
pub mod reach;
pub mod records;
pub mod rounds;
pub mod version;
