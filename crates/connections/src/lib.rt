// The tracks that the switch boxes connect (01 "Chip and boxes", the table; 02, M-102, M-104).
#![tactic(auto)]

ghost use Rattle.std.specs.Prelude.{◌≡◌, true, ◌%◌, ◌≤◌, ◌<◌};
ghost use Rattle.grid.specs.Grid.{meet};
ghost use Rattle.switchbox.specs.SwitchBox.{takes, shift_on, switch_track, connected};
ghost use Rattle.switchbox.specs.Facts.{Made, MapIs};

use channels::Chip;
use switchbox::{Boxes, TrackMap};

// A shift modulo the width w. 64 * w keeps it from falling below 0.
#[tactic(auto, unfolding(switchbox::specs::SwitchBox::adds, switchbox::specs::SwitchBox::takes))]
fn shift_mod(b: u8, w: usize) -> usize
    requires { (takes b ≤ 32) × (1 ≤ w) × (w ≤ 32) }
    ensures { result ≡ shift_on w b % w }
{
    let c = usize::from(b);
    if c < 128 {
        (64 * w + c) % w
    } else {
        (64 * w + c - 256) % w
    }
}

// The switch boxes of a chip, at a width of its channels.
#[derive(Clone, Copy)]
pub struct Switches {
    pub boxes: Boxes,
    pub width: usize,
    ghost made: { Made boxes },
    ghost narrow: { width ≤ 32 },
}

impl Switches {
    // The track map from one side of a box to another by the table.
    fn switch_map(self, from: usize, to: usize) -> TrackMap
        requires { (1 ≤ self.width) × (from < 4) × (to < 4) }
        ensures { MapIs self.width result (switch_track self.boxes.fabric.kind self.boxes.fabric.rows self.width from to) }
    {
        let m = from * 4 + to; // the ordered pair of sides
        let table = self.boxes.table;
        TrackMap {
            minus: usize::from(table.signs[m]),
            shift: shift_mod(table.shifts[m], self.width),
        }
    }

    // The track map from channel c to channel d, which meet: every track to itself in a box on the rim, else by the table.
    pub fn connected_map(self, c: usize, d: usize) -> TrackMap
        requires { (1 ≤ self.width) × (c ≤ 65535) × (d ≤ 65535) × (meet self.boxes.fabric.grid c d ≡ true) }
        ensures { MapIs self.width result (connected self.boxes.fabric self.width c d) }
    {
        let chip = Chip {
            grid: self.boxes.fabric.grid,
        };
        let m = chip.meeting(c, d).unwrap();
        if chip.is_on_rim(m.at) {
            return TrackMap { minus: 0, shift: 0 };
        }
        self.switch_map(m.from, m.to)
    }

    // The track on channel d that track i on channel c is connected to, in the box where they meet: (shift plus or minus i) mod w.
    #[tactic(auto, unfolding(switchbox::specs::Facts::mapped))]
    pub fn connected_track(self, c: usize, d: usize, i: usize) -> usize
        requires { (c ≤ 65535) × (d ≤ 65535) × (meet self.boxes.fabric.grid c d ≡ true) × (i < self.width) }
        ensures { result ≡ connected self.boxes.fabric self.width c d i }
    {
        let w = self.width;
        let map = self.connected_map(c, d);
        if map.minus == 0 {
            (map.shift + i) % w
        } else {
            (map.shift + (w - i)) % w
        }
    }
}
