// The grid of switch boxes and its channels (01 "Chip and boxes"), and the boxes on its rim (02, M-104).
// Knows no bytes. Definitions and laws, and the values that they speak of; the code is in `channels`.
#![tactic(auto)]

// 01: chip. cols is A, rows is B.
#[derive(Clone, Copy)]
pub struct Grid {
    pub cols: usize,
    pub rows: usize,
}

// The limits of A and B.
pub const MIN_SIDE: usize = 2;

pub const MAX_SIDE: usize = 16;

// An end of a channel.
#[derive(Clone, Copy)]
pub struct End {
    pub at: usize, // the box, numbered row by row
    pub side: usize, // its side that the channel is on
}
