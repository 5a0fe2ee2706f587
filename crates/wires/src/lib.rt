// The wires that a home track gives a net, on prepared tables: whether they are free, holding them, taking them back (01 "Trials").
#![tactic(auto)]

ghost use Rattle.std.specs.Prelude.{◌≡◌, true, ℕ, ◌≤◌, ◌<◌, List, length, get_or};
ghost use Rattle.marks.specs.Marks.{held_at};
ghost use Rattle.wires.specs.Wires.{mapped_by, MapFits, MapTable, Triable, free_in, laid, LaidOn};

use marks::{CHANNELS, TRACKS};

// A search has at most so many nets, and its nets so many entries in all.
pub const NETS: usize = 64;

pub const ENTRIES: usize = 2048;

// There are so many track maps: a byte is the shift, plus 32 for minus.
pub const MAPS: usize = 64;

// The track that a track map takes t to.
pub fn mapped_by(code: u8, t: usize, w: usize) -> usize
    requires { MapFits w code t }
    ensures { (result ≡ mapped_by w code t) × (result < w) }
{
    let n = code as usize;
    let x = if n < TRACKS {
        n + t
    } else {
        n - TRACKS + (w - t)
    };
    if x < w { x } else { x - w }
}

// All track maps at the width w: place 64 · t + code has the track that the track map takes t to. A search makes the same few track maps
// many times, and looks them up here.
pub fn map_table(w: usize) -> [u8; MAPS * TRACKS]
    requires { w ≤ 32 }
    ensures { MapTable w result }
{
    let mut tracks = [0u8; MAPS * TRACKS];
    for i in 0..MAPS * w { // the places before i have their tracks
        let code = (i % MAPS) as u8;
        if i % TRACKS < w {
            tracks[i] = mapped_by(code, i / MAPS, w) as u8;
        }
    }
    tracks
}

// The tables of a search's nets at a width: where the entries of each net start, the entries' channels and track maps, and the track that
// each track map takes each track to. `maps` and `tracks` have one type, and the ghost field refuses an exchange.
#[derive(Clone, Copy)]
pub struct NetTables<'a> {
    pub start: &'a [u16; NETS + 1],
    pub chan: &'a [u16; ENTRIES],
    pub maps: &'a [u8; ENTRIES],
    pub tracks: &'a [u8; MAPS * TRACKS],
    pub width: usize,
    ghost narrow: { width ≤ 32 },
    ghost table: { MapTable width tracks.now },
}

impl NetTables<'_> {
    ghost use Rattle.wires.specs.NetsOf.{nets_of};

    // The track that a track map takes t to, looked up.
    fn mapped_at(&self, code: u8, t: usize) -> usize
        requires { MapFits self.now.width code t }
        ensures { (result ≡ mapped_by self.now.width code t) × (result < self.now.width) }
    {
        self.tracks[MAPS * t + code as usize] as usize
    }

    // Whether the wire that the home track t gives entry e is held.
    fn is_wire_held(&self, taken: &[u32; CHANNELS], e: usize, t: usize) -> bool
        requires { MapFits self.now.width (get_or self.now.maps.now e 0) t × (e < 2048) × (get_or self.now.chan.now e 0 < 480) }
        ensures { result ≡ held_at taken.now (get_or self.now.chan.now e 0) (mapped_by self.now.width (get_or self.now.maps.now e 0) t) }
    {
        let x = self.mapped_at(self.maps[e], t);
        marks::is_held(taken, self.chan[e] as usize, x)
    }

    // Whether net k finds all its wires free with the home track t. Each wire is compared when it is worked out, and none is kept. A pass
    // takes two entries, each with a test of its own: this loop decides the speed of every call, and two a pass are faster
    // (docs/PERFORMANCE.md).
    pub fn is_free(&self, taken: &[u32; CHANNELS], k: usize, t: usize) -> bool
        requires { Triable (nets_of self.now) k t }
        ensures { result ≡ free_in (nets_of self.now) taken.now k t }
    {
        let mut e = self.start[k] as usize;
        let end = self.start[k + 1] as usize;
        while e < end { // the wires of the entries before e are free
            if self.is_wire_held(taken, e, t) {
                return false; // at the first of the two
            }
            e += 1;
            if e == end {
                return true;
            }
            if self.is_wire_held(taken, e, t) {
                return false; // at the second
            }
            e += 1;
        }
        true
    }

    // Holds the wires of net k with the home track t, which are free.
    pub fn lay(&self, taken: &mut [u32; CHANNELS], k: usize, t: usize)
        requires triable { Triable (nets_of self.now) k t }
        requires taken_len { (length taken.old ≡ 480) × (free_in (nets_of self.now) taken.old k t ≡ true) }
        ensures { taken.new ≡ laid (nets_of self.now) taken.old k t }
    {
        let first = self.start[k] as usize;
        let end = self.start[k + 1] as usize;
        for e in first..end { // the wires of the entries before e are held
            let x = self.mapped_at(self.maps[e], t);
            marks::hold(taken, self.chan[e] as usize, x);
        }
    }

    // Takes back the wires of net k with the home track t, the last first. The marks are those that `lay` left: on some marks `before` the
    // wires were free, and were laid there; and whatever those were, they are the marks again.
    pub fn unlay(&self, taken: &mut [u32; CHANNELS], k: usize, t: usize)
        requires triable { Triable (nets_of self.now) k t }
        requires by_index { (before : List ℕ) × LaidOn (nets_of self.now) before taken.old k t }
        ensures { (before : List ℕ) → LaidOn (nets_of self.now) before taken.old k t → taken.new ≡ before }
    {
        let first = self.start[k] as usize;
        let end = self.start[k + 1] as usize;
        for e in (first..end).rev() { // the wires of the entries up to e are held
            let x = self.mapped_at(self.maps[e], t);
            marks::release(taken, self.chan[e] as usize, x);
        }
    }
}
