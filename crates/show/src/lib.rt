// Origin: none.
// The bench's lines: of what each call answered, then of the state and the points.
#![tactic(auto)]

pub mod anchors;
pub mod calls;
pub mod looks;
pub mod removal;
pub mod state;
pub mod text;
