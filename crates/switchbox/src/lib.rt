// The switch boxes: their kinds, their tables, and the tracks that they connect (01 "Chip and boxes", the table; 02, M-102, M-104).
// Definitions and laws, and the values that they speak of; the code is in `boxtables` and `connections`.
#![tactic(auto)]

use grid::Grid;

// The kinds 0 subset, 1 Wilton and 2 universal are built in; the inner boxes of kind 3 are given by rows.
pub const ROWS_KIND: usize = 3;

pub const MAX_KIND: usize = 3;

pub const MAX_WIDTH: usize = 32;

// The rows that give kind 3: a sign byte and a shift for each column of the box table.
pub const ROWS_LENGTH: usize = 12;

// The grid with the kind of its switch boxes: what decides which tracks are connected. 01: chip and kind.
#[derive(Clone, Copy)]
pub struct Fabric {
    pub grid: Grid,
    pub kind: usize,
    pub rows: [u8; ROWS_LENGTH], // those of kind 3; the other kinds have none, and zeros stand here
}

// The ordered pairs of sides, from * 4 + to; the sides are 0 left, 1 top, 2 right, 3 bottom.
pub const PAIRS: usize = 16;

// A table: for each ordered pair of sides the sign (0 plus, 1 minus) and the shift, two's complement, from −32 to 32.
#[derive(Clone, Copy)]
pub struct Table {
    pub signs: [u8; PAIRS],
    pub shifts: [u8; PAIRS],
}

// The fabric with the table of its inner boxes.
#[derive(Clone, Copy)]
pub struct Boxes {
    pub fabric: Fabric,
    pub table: Table,
}

// A track map of tracks at a width w: (shift plus or minus t) mod w.
#[derive(Clone, Copy)]
pub struct TrackMap {
    pub minus: usize, // 0 plus, 1 minus
    pub shift: usize, // below w
}
