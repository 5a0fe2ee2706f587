// The track maps that take a net's home track to its tracks, composed along its tree once for each width.
#![tactic(auto)]

ghost use Rattle.std.specs.Prelude.{◌≡◌, true, ◌/◌, ◌%◌, ◌≤◌, ◌<◌, length};
ghost use Rattle.grid.specs.Grid.{meet};
ghost use Rattle.switchbox.specs.SwitchBox.{connected};
ghost use Rattle.switchbox.specs.Facts.{mapped, MapIs};
ghost use Rattle.net.specs.Net.{size, channel, channels_differ, parents_right, entry_of};
ghost use Rattle.net.specs.Read.{net_read};
ghost use Rattle.netsearch.specs.HomeTrack.{home};
ghost use Rattle.trackmaps.specs.TrackMaps.{MapAt, root_track, MapsAre};

use connections::Switches;
use marks::TRACKS;
use net::Record;
use switchbox::TrackMap;

// The track map b and then the track map a.
fn compose(a: TrackMap, b: TrackMap, w: usize) -> TrackMap
    requires { MapAt w a × MapAt w b × (w ≤ 32) }
    ensures { MapIs w result (λ t. mapped w a.minus a.shift (mapped w b.minus b.shift t)) }
{
    if a.minus == 0 {
        TrackMap {
            minus: b.minus,
            shift: (a.shift + b.shift) % w,
        }
    } else {
        TrackMap {
            minus: 1 - b.minus,
            shift: (a.shift + (w - b.shift)) % w,
        }
    }
}

// The entry of the net's home, its lowest-numbered channel.
pub fn home_entry(net: Record<'_>) -> usize
    ensures { (result ≡ entry_of (net_read net.entry) (home (net_read net.entry))) × (result < size (net_read net.entry)) }
{
    let mut at = 0usize;
    let mut low = net.channel(0);
    for i in 1..net.entry_count() { // at is the first entry before i with the lowest channel, low
        let c = net.channel(i);
        if c < low {
            low = c;
            at = i;
        }
    }
    at
}

// A track map as one byte: the shift, plus 32 for minus; and the track map of a byte.
fn code_of(a: TrackMap) -> u8
    requires { MapAt 32 a }
    ensures { (result / 32 ≡ a.minus) × (result % 32 ≡ a.shift) × (result < 64) }
{
    (a.minus * TRACKS + a.shift) as u8
}

fn map_of(code: u8) -> TrackMap
    ensures { (result.minus ≡ code / 32) × (result.shift ≡ code % 32) }
{
    let c = code as usize;
    TrackMap {
        minus: c / TRACKS,
        shift: c % TRACKS,
    }
}

// The record of a net whose tree is accepted, and the switch boxes that connect its tracks.
#[derive(Clone, Copy)]
pub struct Tree<'a> {
    pub record: Record<'a>,
    pub switches: Switches,
    ghost low: { 1 ≤ switches.width },
    ghost parents: { parents_right switches.boxes.fabric.grid (net_read «record») ≡ true },
    ghost differ: { channels_differ (net_read «record») ≡ true },
}

impl<'a> Tree<'a> {
    // The track map from the track of entry i to the track of entry j, whose channels meet.
    fn edge_map(self, i: usize, j: usize) -> TrackMap
        requires places { (i < size (net_read self.record)) × (j < size (net_read self.record)) }
        requires j_value { meet self.switches.boxes.fabric.grid (channel (net_read self.record) i) (channel (net_read self.record) j) ≡ true }
        ensures { MapIs self.entry.switches.width result (connected self.entry.switches.boxes.fabric self.entry.switches.width (channel (net_read self.entry.record) i) (channel (net_read self.entry.record) j)) }
    {
        self.switches
            .connected_map(self.record.channel(i), self.record.channel(j))
    }

    // The track map from the home track to the first entry's track: up the tree.
    fn root_map(self) -> TrackMap
        ensures { MapIs self.entry.switches.width result (root_track (connected self.entry.switches.boxes.fabric self.entry.switches.width) (net_read self.entry.record)) }
    {
        let mut i = home_entry(self.record);
        let mut up = TrackMap { minus: 0, shift: 0 };
        while i != 0 { // up is the track map from the home track to the track of entry i
            let p = self.record.parent(i);
            up = compose(self.edge_map(i, p), up, self.switches.width);
            i = p;
        }
        up
    }

    // Fills `out`, one byte for each entry, with the track maps from the home track: down the tree, parents first.
    pub fn net_maps(self, out: &mut [u8])
        requires { length out.old ≡ size (net_read self.record) }
        ensures { (length out.new ≡ size (net_read self.entry.record)) × MapsAre (connected self.entry.switches.boxes.fabric self.entry.switches.width) self.entry.switches.width (net_read self.entry.record) out.new }
    {
        out[0] = code_of(self.root_map());
        for i in 1..self.record.entry_count() { // the entries before i have their bytes
            let p = self.record.parent(i);
            let down = self.edge_map(p, i);
            out[i] = code_of(compose(down, map_of(out[p]), self.switches.width));
        }
    }
}
