// The channels of a chip by their numbers: their ends, and the boxes where they meet (01 "Chip and boxes"; 02, M-104).
// Knows no bytes: numbers in, numbers out.
#![tactic(auto)]

ghost use Rattle.std.specs.Prelude.{◌≡◌, ◌≤◌};
ghost use Rattle.grid.specs.Grid.{channel_count, first_end, second_end, apart, meeting_or, meeting, meet, on_rim};
ghost use Rattle.grid.specs.Facts.{Sized};
ghost use Rattle.channels.specs.Meetings.{where_met};

use grid::{End, Grid};

// The sides of a box.
const LEFT: usize = 0;

const TOP: usize = 1;

const RIGHT: usize = 2;

const BOTTOM: usize = 3;

// A grid whose sides are within their limits. 01: chip.
#[derive(Clone, Copy)]
pub struct Chip {
    pub grid: Grid,
    ghost sized: { Sized grid },
}

// The two ends of a channel: the left and the right one, or the lower and the upper.
#[derive(Clone, Copy)]
struct Ends {
    first: End,
    second: End,
}

// Where two channels meet.
#[derive(Clone, Copy)]
pub struct Meeting {
    pub at: usize, // the box
    pub from: usize, // its side that the first channel is on
    pub to: usize, // and the second
}

// The meeting of two channels with the ends p and q, where these are at one box.
#[tactic(auto, unfolding(grid::specs::Grid::meeting_or))]
fn meeting_at(p: End, q: End) -> Option<Meeting>
    ensures { result ≡ where_met (meeting_or p q apart) }
{
    if p.at != q.at {
        return None;
    }
    Some(Meeting {
        at: p.at,
        from: p.side,
        to: q.side,
    })
}

impl Chip {
    // How many channels the chip has.
    #[tactic(auto, using(grid::proofs::GridLaws::count_bounds))]
    pub fn channel_count(self) -> usize
        ensures { result ≡ channel_count self.grid }
    {
        let cols = self.grid.cols;
        let rows = self.grid.rows;
        rows * (cols - 1) + cols * (rows - 1)
    }

    // The ends of channel n.
    #[tactic(auto, using(grid::proofs::GridLaws::count_bounds), unfolding(grid::specs::Grid::first_end, grid::specs::Grid::second_end))]
    fn ends_of(self, n: usize) -> Ends
        requires { n ≤ 65535 }
        ensures { (result.first ≡ first_end self.grid n) × (result.second ≡ second_end self.grid n) }
    {
        let cols = self.grid.cols;
        let rights = self.grid.rows * (cols - 1);
        if n < rights {
            let x = n / (cols - 1) * cols + n % (cols - 1);
            Ends {
                first: End { at: x, side: RIGHT },
                second: End {
                    at: x + 1, // the next box of the row
                    side: LEFT,
                },
            }
        } else {
            let x = n - rights;
            Ends {
                first: End { at: x, side: TOP },
                second: End {
                    at: x + cols, // the box above
                    side: BOTTOM,
                },
            }
        }
    }

    // Where channels c and d meet: the box, and their sides at it.
    #[tactic(auto, using(crate::proofs::MeetingsLaws::meeting_steps))]
    pub fn meeting(self, c: usize, d: usize) -> Option<Meeting>
        requires { (c ≤ 65535) × (d ≤ 65535) }
        ensures { result ≡ where_met (meeting self.grid c d) }
    {
        if c == d {
            return None;
        }
        let e = self.ends_of(c);
        let f = self.ends_of(d);
        meeting_at(e.first, f.first)
            .or(meeting_at(e.first, f.second))
            .or(meeting_at(e.second, f.first))
            .or(meeting_at(e.second, f.second))
    }

    // Whether channels c and d meet.
    pub fn meets(self, c: usize, d: usize) -> bool
        requires { (c ≤ 65535) × (d ≤ 65535) }
        ensures { result ≡ meet self.grid c d }
    {
        self.meeting(c, d).is_some()
    }

    // Whether box x has fewer than four channels: in the first or the last column or row.
    #[tactic(auto, using(grid::proofs::RimLaws::rim_tests))]
    pub fn is_on_rim(self, x: usize) -> bool
        ensures { result ≡ on_rim self.grid x }
    {
        let col = x % self.grid.cols;
        let row = x / self.grid.cols;
        col == 0 || col >= self.grid.cols - 1 || row == 0 || row >= self.grid.rows - 1
    }
}
