// Origin: none.
// Calls written as records of a trace: what all records share (head), the calls of rounds (rounds), of points (points) and a resolution
// (resolve).
#![tactic(auto)]

pub mod head;
pub mod points;
pub mod resolve;
pub mod rounds;
