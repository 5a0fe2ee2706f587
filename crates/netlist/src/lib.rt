// The netlist file, 01: sheet. Its trailer, its records and what they count.
#![tactic(auto)]

ghost use Rattle.std.specs.Prelude.{◌≡◌, ◌+◌, ◌*◌, ◌≤◌, ◌<◌, length};
ghost use Rattle.switchbox.specs.Facts.{boxes_of};
ghost use Rattle.net.specs.Net.{number_size};
ghost use Rattle.netlist.specs.Netlist.{WellFormed, trailer_length, mark_of, trailer_of, grid_of, rows_of, fabric_of, start_of, record_part, record_bytes, net_at, nets};
ghost use Rattle.switchbox.specs.SwitchBox.{rows_size};
ghost use Rattle.net.specs.Nets.{entry_count};
ghost use Rattle.netlist.specs.Facts.{max_ticket, DirectoryFits, Readable};

use channels::Chip;
use grid::Grid;
use net::Record;
use switchbox::{Boxes, Fabric, ROWS_KIND, ROWS_LENGTH};

// The limits of the file: its nets, and how long a sheet is.
pub const MAX_NETS: usize = 64;

pub const TRAILER_LENGTH: usize = 12;

pub const MAX_SHEET: usize = 8728;

// The bytes of the marks: the first, and the second of 57 48 and of 57 49.
pub const FIRST_MARK: usize = 0x57;

pub const SHORT_MARK: usize = 0x48;

pub const LONG_MARK: usize = 0x49;

// The most entries that the nets of a sheet have together, each one byte of a track assignment.
pub const MAX_TICKET: usize = 2048;

// The trailer's fields but for the length field and the mark.
#[derive(Clone, Copy)]
pub struct Trailer {
    pub grid: Grid,
    pub kind: usize,
    pub width: usize,
    pub nets: usize,
    pub directory: usize,
    pub numbersize: usize, // how many bytes a net number has, by the mark; a function that takes it calls it z
}

// A part of the sheet.
#[repr(C)]
#[derive(Clone, Copy)]
pub struct Part {
    pub offset: usize,
    pub len: usize,
}

// How many bytes the net numbers of a sheet have, by its last byte.
#[tactic(auto, unfolding(crate::specs::Netlist::mark_of, crate::specs::Netlist::mark_byte, net::specs::Net::number_size))]
fn number_size(s: &[u8]) -> usize
    requires { trailer_length ≤ length s.now }
    ensures { result ≡ number_size (mark_of s.now) }
{
    if net::byte_at(s, s.len() - 1) == LONG_MARK {
        net::LONG_NUMBER
    } else {
        net::SHORT_NUMBER
    }
}

// The trailer of a sheet of 12 bytes or more.
#[tactic(auto, unfolding(crate::specs::Netlist::trailer_of))]
pub fn read_trailer(s: &[u8]) -> Trailer
    requires { trailer_length ≤ length s.now }
    ensures { (result ≡ trailer_of s.now) × (result.nets ≤ 65535) × (result.directory ≤ 65535) }
{
    let at = s.len() - TRAILER_LENGTH;
    Trailer {
        grid: Grid {
            cols: net::byte_at(s, at),
            rows: net::byte_at(s, at + 1),
        },
        kind: net::byte_at(s, at + 2),
        width: net::byte_at(s, at + 3),
        nets: net::u16_at(s, at + 4),
        directory: net::u16_at(s, at + 6),
        numbersize: number_size(s),
    }
}

// How many bytes stand between the directory and the trailer: the rows of kind 3.
#[tactic(auto, unfolding(switchbox::specs::SwitchBox::rows_size))]
pub fn rows_size(kind: usize) -> usize
    ensures { result ≡ rows_size kind }
{
    if kind == ROWS_KIND { ROWS_LENGTH } else { 0 }
}

// A sheet whose directory ends where the rows of kind 3 stand, or the trailer.
#[derive(Clone, Copy)]
pub struct Framed<'a> {
    pub bytes: &'a [u8],
    pub trailer: Trailer,
    ghost fits: { DirectoryFits bytes.now trailer },
}

impl<'a> Framed<'a> {
    // The rows of kind 3; zeros for the other kinds, which have none.
    #[tactic(auto, unfolding(crate::specs::Netlist::rows_of, switchbox::specs::SwitchBox::rows_size))]
    pub fn rows(self) -> [u8; ROWS_LENGTH]
        ensures { result ≡ rows_of self.entry.bytes.now }
    {
        let mut rows = [0u8; ROWS_LENGTH];
        if self.trailer.kind == ROWS_KIND {
            let at = self.bytes.len() - TRAILER_LENGTH - ROWS_LENGTH;
            rows.copy_from_slice(&self.bytes[at..at + ROWS_LENGTH]);
        }
        rows
    }

    // Where record k starts; after the last record, the directory's offset.
    #[tactic(auto, unfolding(crate::specs::Netlist::start_of))]
    pub fn start_of(self, k: usize) -> usize
        requires { k ≤ self.trailer.nets }
        ensures { (result ≡ start_of self.entry.bytes.now k) × (result ≤ 65535) }
    {
        let directory = self.trailer.directory;
        if k < self.trailer.nets {
            net::u16_at(self.bytes, directory + 2 * k)
        } else {
            directory
        }
    }
}

// A sheet that none of the numbers 1 to 5 and 18 refuses: its records can be read.
#[derive(Clone, Copy)]
pub struct Netlist<'a> {
    pub bytes: &'a [u8],
    pub trailer: Trailer,
    ghost readable: { Readable bytes.now },
    ghost own: { trailer ≡ trailer_of bytes.now },
}

impl<'a> Netlist<'a> {
    // The chip.
    pub fn chip(self) -> Chip
        ensures { result.grid ≡ grid_of self.entry.bytes.now }
    {
        Chip {
            grid: self.trailer.grid,
        }
    }

    // The fabric with the table of its inner boxes: made once in a call, and handed on.
    #[tactic(auto, using(crate::proofs::NetlistLaws::of_trailer))]
    pub fn boxes(self) -> Boxes
        ensures { result ≡ boxes_of (fabric_of self.entry.bytes.now) }
    {
        let framed = Framed {
            bytes: self.bytes,
            trailer: self.trailer,
        };
        boxtables::boxes_of(Fabric {
            grid: self.trailer.grid,
            kind: self.trailer.kind,
            rows: framed.rows(),
        })
    }

    // The place of record k: the offset that the directory gives for it, and its length.
    #[tactic(auto, using(crate::proofs::NetlistLaws::of_trailer))]
    pub fn record_part(self, k: usize) -> Part
        requires { k < self.trailer.nets }
        ensures { (result ≡ record_part self.entry.bytes.now k) × (result.offset + result.len ≤ length self.entry.bytes.now) }
    {
        let offset = net::u16_at(self.bytes, self.trailer.directory + 2 * k);
        let n = net::count_at(self.bytes, self.trailer.numbersize, offset);
        Part {
            offset,
            len: net::record_length(self.trailer.numbersize, n),
        }
    }

    // "the record's own bytes, from its net number to its last entry": the part of the sheet that starts at the directory's offset.
    #[tactic(auto, using(crate::proofs::NetlistLaws::of_trailer))]
    pub fn record(self, k: usize) -> Record<'a>
        requires { k < self.trailer.nets }
        ensures { (result.bytes.now ≡ record_bytes self.entry.bytes.now k) × (result.z ≡ self.entry.trailer.numbersize) }
    {
        let part = self.record_part(k);
        Record {
            bytes: &self.bytes[part.offset..part.offset + part.len],
            z: self.trailer.numbersize,
        }
    }

    // The number of net k.
    pub fn net_number(self, k: usize) -> usize
        requires { k < self.trailer.nets }
        ensures { (result ≡ (net_at self.entry.bytes.now k).number) × (result ≤ 4294967295) }
    {
        self.record(k).number()
    }

    // How many entries the nets have together.
    #[tactic(auto, using(crate::proofs::NetlistLaws::of_trailer))]
    pub fn entry_total(self) -> usize
        ensures { (result ≡ entry_count (nets self.entry.bytes.now)) × (result ≤ max_ticket) }
    {
        let mut total = 0usize;
        for k in 0..self.trailer.nets { // total is the entry count of the nets before k
            total += self.record(k).entry_count();
        }
        total // of all nets
    }
}

// An accepted sheet.
#[derive(Clone, Copy)]
pub struct Sheet<'a> {
    pub netlist: Netlist<'a>,
    ghost accepted: { WellFormed netlist.bytes.now },
}
