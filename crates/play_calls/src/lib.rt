// Origin: none.
// Recorded calls made: one function for each kind, which reads what its call takes from the fields of a record.
#![tactic(auto)]

pub mod points;
pub mod room;
pub mod rounds;
