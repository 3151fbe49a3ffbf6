// Origin: none.
// Plays recorded calls: reads a record, makes its call, and says what the call answered.
#![tactic(auto)]

pub mod one;
