// One net's part of a track assignment, 01: ticket, and the tests of it.
#![tactic(auto)]

ghost use Rattle.std.specs.Prelude.{◌≡◌, true, ◌≢◌, ◌<◌, ℕ, length};
ghost use Rattle.marks.specs.Marks.{marked_in};
ghost use Rattle.switchbox.specs.SwitchBox.{connected};
ghost use Rattle.net.specs.Net.{size, channel, parents_right};
ghost use Rattle.net.specs.Read.{net_read};
ghost use Rattle.nettracks.specs.declared.TrackTest.TheVariants.{Range};
ghost use Rattle.nettracks.specs.NetTracks.{in_range, switched_at, unrouted, skipped};
ghost use Rattle.nettracks.specs.Facts.{tracks_pass, wire_count, tracks_pass_at};

use connections::Switches;
use marks::CHANNELS;
use net::Record;

// The byte that stands for no track.
pub const NO_TRACK: usize = 255;

// The tests of a net's tracks: 11 track, 12 switch, 21 broken.
#[derive(Clone, Copy)]
pub enum TrackTest {
    Range,
    Switches,
    Whole,
}

// Whether every byte is 255.
pub fn is_unrouted(ts: &[u8]) -> bool
    ensures { result ≡ unrouted ts.now }
{
    ts.iter().all(|t| *t as usize == NO_TRACK)
}

// Whether the net is not looked at: an unrouted net, where partial is true.
#[tactic(auto, unfolding(crate::specs::NetTracks::skipped))]
pub fn is_skipped(ts: &[u8], partial: bool) -> bool
    ensures { result ≡ skipped partial ts.now }
{
    partial && is_unrouted(ts)
}

// How many wires the net holds: one for each entry, or none where it is not looked at.
#[tactic(auto, unfolding(crate::specs::Facts::wire_count))]
pub fn wire_count(net: Record<'_>, ts: &[u8], partial: bool) -> usize
    ensures { result ≡ wire_count partial (net_read net.entry) ts.now }
{
    if is_skipped(ts, partial) {
        0
    } else {
        net.entry_count()
    }
}

// The tracks of a net, one byte for each entry, and the switch boxes that are to connect them.
#[derive(Clone, Copy)]
pub struct NetTracks<'a> {
    pub record: Record<'a>,
    pub tracks: &'a [u8],
    pub switches: Switches,
    ghost sized: { length tracks.now ≡ size (net_read «record») },
    ghost parents: { parents_right switches.boxes.fabric.grid (net_read «record») ≡ true },
    ghost few: { (i : ℕ) → i < size (net_read «record») → channel (net_read «record») i < 480 },
}

impl<'a> NetTracks<'a> {
    // Whether the tracks of entry i and its parent are connected.
    fn switched_at(self, i: usize) -> bool
        requires { (in_range self.switches.width (net_read self.record) self.tracks.now ≡ true) × (i < size (net_read self.record)) }
        ensures { result ≡ switched_at (connected self.entry.switches.boxes.fabric self.entry.switches.width) (net_read self.entry.record) self.entry.tracks.now i }
    {
        if i == 0 {
            return true;
        }
        let p = self.record.parent(i);
        let c = self.record.channel(p);
        let d = self.record.channel(i);
        let t = net::byte_at(self.tracks, p);
        net::byte_at(self.tracks, i) == self.switches.connected_track(c, d, t)
    }

    // Whether entry i passes the test: 11, its track is below w; 12, its track and its parent's are connected; 21, its wire is not marked.
    #[tactic(auto, unfolding(crate::specs::Facts::tracks_pass_at))]
    fn entry_passes(self, dead: &[u32; CHANNELS], test: TrackTest, i: usize) -> bool
        requires { (test ≢ Range → in_range self.switches.width (net_read self.record) self.tracks.now ≡ true) × (i < size (net_read self.record)) }
        ensures { result ≡ tracks_pass_at test (connected self.entry.switches.boxes.fabric self.entry.switches.width) (marked_in dead.now) self.entry.switches.width (net_read self.entry.record) self.entry.tracks.now i }
    {
        match test {
            TrackTest::Range => net::byte_at(self.tracks, i) < self.switches.width,
            TrackTest::Switches => self.switched_at(i),
            TrackTest::Whole => {
                let c = self.record.channel(i);
                let t = net::byte_at(self.tracks, i);
                !marks::is_held(dead, c, t)
            }
        }
    }

    // Whether the net's tracks pass the test; the marks have the broken wires. The tests but that of ranges want tracks in range: no other
    // track has a connected one, or a mark.
    pub fn passes_test(self, dead: &[u32; CHANNELS], test: TrackTest) -> bool
        requires { test ≢ Range → in_range self.switches.width (net_read self.record) self.tracks.now ≡ true }
        ensures { result ≡ tracks_pass test (connected self.entry.switches.boxes.fabric self.entry.switches.width) (marked_in dead.now) self.entry.switches.width (net_read self.entry.record) self.entry.tracks.now }
    {
        (0..self.record.entry_count()).all(|i| self.entry_passes(dead, test, i))
    }
}
