// Origin: none.
// The lines of a play (02: N5), put into a lent buffer. Each function returns the next offset.
#![tactic(auto)]

pub mod end;
pub mod line;
mod put;
pub mod said;

// The longest line of a refusal: its word (8), a number (10), the newline. The lines of a call take at most this and its buffer's length.
pub const REFUSED_BYTES: usize = 19;
