// Writes a track assignment, 01: ticket: each net's tracks from its home track.
#![tactic(auto)]

ghost use Rattle.std.specs.Prelude.{◌≡◌, ◌≤◌, length, take};
ghost use Rattle.net.specs.Nets.{entry_count};
ghost use Rattle.netlist.specs.Netlist.{nets, connected_on};
ghost use Rattle.rank.specs.Facts.{rising_nets};
ghost use Rattle.netsearch.specs.HomeTrack.{assignment_from};
ghost use Rattle.routing.specs.Outcomes.{overwrite};
ghost use Rattle.planner.specs.Planned.{Started};
ghost use Rattle.writer.specs.Written.{Codes, tracks_from, Writable};

use netlist::Sheet;
use wires::{ENTRIES, NETS};

// "the writer is lent the ticket's part from the net's first byte and fills that alone": the tracks that a net's track maps take the
// home track h to, one for each byte of its part.
fn write_net(codes: &[u8], h: usize, w: usize, part: &mut [u8])
    requires { (length part.old ≡ length codes.now) × Codes w h codes.now }
    ensures { part.new ≡ tracks_from w h codes.now }
{
    for (i, track) in part.iter_mut().enumerate() { // the first i bytes are written
        *track = wires::mapped_by(codes[i], h, w) as u8;
    }
}

// "each net's bytes stand together, net after net in the sheet's order": writes the assignment in which the nets, in rising net number,
// have the home tracks `homes`, at the width w.
pub fn write_all(
    sheet: Sheet<'_>,
    start: &[u16; NETS + 1],
    maps: &[u8; ENTRIES],
    homes: &[u8; NETS],
    w: usize,
    out: &mut [u8],
)
    requires started { Started (rising_nets sheet.netlist.bytes.now) start.now }
    requires writable { Writable sheet.netlist.bytes.now w start.now maps.now sheet.netlist.trailer.nets homes.now × (entry_count (nets sheet.netlist.bytes.now) ≤ length out.old) }
    ensures { out.new
        ≡ overwrite (assignment_from (connected_on sheet.entry.netlist.bytes.now w) (nets sheet.entry.netlist.bytes.now) (take sheet.entry.netlist.trailer.nets homes.now)) out.old }
{
    let mut at = 0usize;
    for j in 0..sheet.netlist.trailer.nets { // the bytes of the nets before j are written, and those of net j start at `at`
        let k = rank::rank_of(sheet, j);
        let codes = &maps[start[k] as usize..start[k + 1] as usize];
        let end = at + codes.len();
        write_net(codes, homes[k] as usize, w, &mut out[at..end]);
        at = end;
    }
}
