// Origin: none.
// An input of any length played: step plays one record, part those of a buffer, input fills the buffer again.
#![tactic(auto)]

pub mod input;
pub mod part;
pub mod step;

use lines::REFUSED_BYTES;

// Places of a program's tables, unless another number is asked for.
pub const PLACES: usize = 20;

// Bytes of a program's answer buffer, at most.
pub const ANSWER_BYTES: usize = 4096;

// Room for the lines of one call.
pub const LINES_BYTES: usize = ANSWER_BYTES + REFUSED_BYTES;
