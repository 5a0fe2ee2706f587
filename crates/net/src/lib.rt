// One net, read off the bytes of its record (01 "The sheet"), and the tests of one net.
#![tactic(auto)]

ghost use Rattle.std.specs.Prelude.{◌≡◌, ◌+◌, ◌≤◌, ◌<◌, not, eqb, length, get_or};
ghost use Rattle.bounded.specs.Bounded.{every};
ghost use Rattle.net.specs.Net.{u16_at, max_entries, count_place, channel_place, record_length, count_at, size, channel, parent, parent_right};
ghost use Rattle.net.specs.Facts.{WholeRecord, passes_at, passes};
ghost use Rattle.net.specs.Props.{whole_prop};

use channels::Chip;

// The most entries a net has, and the parent of its first entry.
pub const MAX_ENTRIES: usize = 32;

pub const NO_PARENT: usize = 65535;

// Where the net number stands in a record; the entry count stands behind it.
const NUMBER_PLACE: usize = 0;

// Where the channel stands in an entry, and the parent.
const CHANNEL_PLACE: usize = 0;

const PARENT_PLACE: usize = 2;

// How many bytes a net number has under the marks 57 48 and 57 49.
pub const SHORT_NUMBER: usize = 2;

pub const LONG_NUMBER: usize = 4;

// The tests of one net: 6 channel, 7 twice, 8 joint.
#[derive(Clone, Copy)]
pub enum Test {
    Channels,
    Repeats,
    Edges,
}

// The byte at offset k.
pub fn byte_at(s: &[u8], k: usize) -> usize
    requires { k < length s.now }
    ensures { (result ≡ get_or s.now k 0) × (result ≤ 255) }
{
    s[k] as usize
}

// The u16 at offset k, low byte first.
#[tactic(auto, unfolding(crate::specs::Net::u16_at))]
pub fn u16_at(s: &[u8], k: usize) -> usize
    requires { k + 1 < length s.now }
    ensures { (result ≡ u16_at s.now k) × (result ≤ 65535) }
{
    let low = byte_at(s, k);
    let high = byte_at(s, k + 1);
    low + high * 256
}

// How many bytes a record of n entries has.
pub fn record_length(z: usize, n: usize) -> usize
    requires { (z ≤ 4) × (n ≤ 65535) }
    ensures { result ≡ record_length z n }
{
    z + 2 + 4 * n
}

// The entry count of the record that starts at offset o.
pub fn count_at(s: &[u8], z: usize, o: usize) -> usize
    requires { o + count_place z + 1 < length s.now }
    ensures { (result ≡ count_at z s.now o) × (result ≤ 65535) }
{
    u16_at(s, o + (NUMBER_PLACE + z))
}

// The record of a net: the part of the sheet that starts at the directory's offset, with how many bytes its net number has, z.
#[derive(Clone, Copy)]
pub struct Record<'a> {
    pub bytes: &'a [u8],
    pub z: usize,
    ghost whole: { WholeRecord z bytes.now } by { whole_prop z bytes.now },
}

impl<'a> Record<'a> {
    ghost use Rattle.net.specs.Read.{net_read};

    // The net number.
    pub fn number(self) -> usize
        ensures { (result ≡ (net_read self.entry).number) × (result ≤ 4294967295) }
    {
        let low = u16_at(self.bytes, NUMBER_PLACE);
        if self.z == LONG_NUMBER {
            let high = u16_at(self.bytes, NUMBER_PLACE + 2);
            return low + high * 65536;
        }
        low
    }

    // How many entries there are.
    pub fn entry_count(self) -> usize
        ensures { (result ≡ size (net_read self.entry)) × (1 ≤ result) × (result ≤ max_entries) }
    {
        count_at(self.bytes, self.z, 0)
    }

    // The u16 that stands k bytes behind the start of entry i.
    fn entry_u16(self, i: usize, k: usize) -> usize
        requires { (i < size (net_read self)) × (k ≤ PARENT_PLACE) }
        ensures { (result ≡ u16_at self.entry.bytes.now (channel_place self.entry.z i + k)) × (result ≤ 65535) }
    {
        u16_at(self.bytes, NUMBER_PLACE + self.z + 2 + 4 * i + k)
    }

    // The channel of entry i.
    pub fn channel(self, i: usize) -> usize
        requires { i < size (net_read self) }
        ensures { (result ≡ channel (net_read self.entry) i) × (result ≤ 65535) }
    {
        self.entry_u16(i, CHANNEL_PLACE)
    }

    // The parent of entry i.
    pub fn parent(self, i: usize) -> usize
        requires { i < size (net_read self) }
        ensures { (result ≡ parent (net_read self.entry) i) × (result ≤ 65535) }
    {
        self.entry_u16(i, PARENT_PLACE)
    }

    // Whether the channel of entry i differs from those of the entries before it.
    fn differs_from_earlier(self, i: usize) -> bool
        requires { i < size (net_read self) }
        ensures { result ≡ every i (λ j. not (eqb (channel (net_read self.entry) i) (channel (net_read self.entry) j))) }
    {
        let c = self.channel(i);
        (0..i).all(|j| c != self.channel(j))
    }

    // Whether the parent of entry i keeps its rule.
    fn parent_right(self, chip: Chip, i: usize) -> bool
        requires { i < size (net_read self) }
        ensures { result ≡ parent_right chip.grid (net_read self.entry) i }
    {
        let p = self.parent(i);
        if i == 0 {
            return p == NO_PARENT;
        }
        p < i && chip.meets(self.channel(p), self.channel(i))
    }

    // Whether entry i passes the test: 6, its channel is one of the chip's; 7, its channel is none of an earlier entry's; 8, its parent keeps
    // its rule.
    #[tactic(auto, unfolding(crate::specs::Facts::passes_at))]
    fn entry_passes(self, chip: Chip, test: Test, i: usize) -> bool
        requires { i < size (net_read self) }
        ensures { result ≡ passes_at chip.grid test (net_read self.entry) i }
    {
        match test {
            Test::Channels => self.channel(i) < chip.channel_count(),
            Test::Repeats => self.differs_from_earlier(i),
            Test::Edges => self.parent_right(chip, i),
        }
    }

    // Whether the net passes the test.
    pub fn passes_test(self, chip: Chip, test: Test) -> bool
        ensures { result ≡ passes chip.grid test (net_read self.entry) }
    {
        (0..self.entry_count()).all(|i| self.entry_passes(chip, test, i))
    }
}
