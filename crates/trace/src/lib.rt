// Origin: none.
// Recorded calls, read from bytes. A trace is a run of records: head finds where one stands and its kind, fields reads what its call
// takes. anchors reads the records that a commit writes, peer_stats and events what a remove writes.
#![tactic(auto)]

pub mod anchors;
pub mod bytes;
pub mod codes;
pub mod events;
pub mod fields;
pub mod head;
pub mod peer_stats;
