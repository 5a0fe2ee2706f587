// Which netlist files are accepted: the tests of the numbers 1 to 9 and 18, Read and Record.
#![tactic(auto)]

ghost use Rattle.std.specs.Prelude.{◌≡◌, false, not, ◌||◌, ◌+◌, ◌≤◌, ◌<◌, eqb, length, IfOk, IfErr};
ghost use Rattle.bounded.specs.Bounded.{every};
ghost use Rattle.numbers.specs.Facts.{no_of, number_of};
ghost use Rattle.net.specs.Net.{short, long};
ghost use Rattle.netlist.specs.Netlist.{mark_byte, trailer_of, net_at, bad_length, bad_mark, bad_grid, bad_directory, bad_rows, duplicate_net, refusal};
ghost use Rattle.netlist.specs.Facts.{bad_net};
ghost use Rattle.reader.specs.Read.{read_of, part_of, record_of};

use net::Test;
use netlist::{Framed, Netlist, Part, Sheet, Trailer};
use numbers::Refusal;

// What Read answers: 0 and the two counts, or the number of the refusal and zeros.
#[repr(C)]
#[derive(Clone, Copy)]
pub struct Counts {
    pub number: u32,
    pub nets: u32,
    pub entries: u32,
}

// Whether x is the second byte of one of the two marks.
#[tactic(auto, unfolding(netlist::specs::Netlist::mark_byte))]
fn is_mark_byte(x: usize) -> bool
    ensures { result ≡ (eqb x (mark_byte short) || eqb x (mark_byte long)) }
{
    x == netlist::SHORT_MARK || x == netlist::LONG_MARK
}

// Whether a sign or a shift of the rows is outside its values: of kind 3 alone, since zeros stand for the rows of the others.
#[tactic(auto, unfolding(netlist::specs::Netlist::bad_rows))]
fn bad_rows(framed: Framed<'_>) -> bool
    ensures { result ≡ bad_rows framed.entry.bytes.now }
{
    !boxtables::rows_allowed(framed.rows())
}

// A sheet that 1 does not refuse, with its trailer.
#[derive(Clone, Copy)]
struct Measured<'a> {
    bytes: &'a [u8],
    trailer: Trailer,
    ghost sized: { bad_length bytes.now ≡ false },
    ghost own: { trailer ≡ trailer_of bytes.now },
    ghost low: { (trailer.nets ≤ 65535) × (trailer.directory ≤ 65535) },
}

impl<'a> Measured<'a> {
    // Whether the last two bytes or the length field are wrong.
    #[tactic(auto, unfolding(netlist::specs::Netlist::bad_length, netlist::specs::Netlist::bad_mark))]
    fn bad_mark(self) -> bool
        ensures { result ≡ bad_mark self.entry.bytes.now }
    {
        let n = self.bytes.len();
        net::byte_at(self.bytes, n - 2) != netlist::FIRST_MARK
            || !is_mark_byte(net::byte_at(self.bytes, n - 1))
            || net::u16_at(self.bytes, n - 4) != n
    }

    // Whether a side of the grid, the kind or the width is outside its values.
    #[tactic(auto, unfolding(netlist::specs::Netlist::bad_grid))]
    fn bad_grid(self) -> bool
        ensures { result ≡ bad_grid self.entry.bytes.now }
    {
        !(grid::MIN_SIDE..=grid::MAX_SIDE).contains(&self.trailer.grid.cols)
            || !(grid::MIN_SIDE..=grid::MAX_SIDE).contains(&self.trailer.grid.rows)
            || !(0..=switchbox::MAX_KIND).contains(&self.trailer.kind)
            || !(1..=switchbox::MAX_WIDTH).contains(&self.trailer.width)
    }

    // Whether the directory does not end where the rows of kind 3 or the trailer stand, or the records do not stand back to back from 0 to
    // the directory at its offsets, or an entry count is outside its values. The sums are of whole numbers: nothing wraps at 65,536.
    #[tactic(auto, using(netlist::proofs::NetlistLaws::of_trailer))]
    fn bad_directory(self) -> bool
        ensures { result ≡ bad_directory self.entry.bytes.now }
    {
        let trailer = self.trailer;
        let z = trailer.numbersize;
        let directory = trailer.directory;
        if directory + 2 * trailer.nets + netlist::rows_size(trailer.kind) + netlist::TRAILER_LENGTH
            != self.bytes.len()
        {
            return true;
        }
        let framed = Framed {
            bytes: self.bytes,
            trailer,
        };
        if framed.start_of(0) != 0 {
            return true;
        }
        let mut at = 0usize;
        for k in 0..trailer.nets { // the records before k fit, and the next one starts at `at`
            let n = net::count_at(self.bytes, z, at);
            if !(1..=net::MAX_ENTRIES).contains(&n) {
                return true;
            }
            at += net::record_length(z, n);
            if directory < at {
                return true;
            }
            if framed.start_of(k + 1) != at {
                return true;
            }
        }
        false
    }

    // The tests of 2 to 5 and 18, in the order of the table: with none of them the sheet's records can be read.
    #[tactic(auto, using(netlist::proofs::NetlistLaws::of_trailer), unfolding(netlist::specs::Netlist::refusal, netlist::specs::Netlist::too_many_nets, numbers::specs::Numbers::first_number))]
    fn open(self) -> Result<Netlist<'a>, Refusal>
        ensures refused { IfErr result (λ e. no_of e ≡ refusal self.entry.bytes.now) }
        ensures opened { IfOk result (λ netlist. netlist.bytes.now ≡ self.entry.bytes.now) }
    {
        if self.bad_mark() {
            return Err(Refusal::Mark);
        }
        if self.bad_grid() {
            return Err(Refusal::Chip);
        }
        if netlist::MAX_NETS < self.trailer.nets {
            return Err(Refusal::Crowd);
        }
        if self.bad_directory() {
            return Err(Refusal::Directory);
        }
        if bad_rows(Framed {
            bytes: self.bytes,
            trailer: self.trailer,
        }) {
            return Err(Refusal::Parameter);
        }
        Ok(Netlist {
            bytes: self.bytes,
            trailer: self.trailer,
        })
    }
}

// Whether some net does not pass the test.
fn bad_net(netlist: Netlist<'_>, test: Test) -> bool
    ensures { result ≡ bad_net test netlist.entry.bytes.now }
{
    let chip = netlist.chip();
    !(0..netlist.trailer.nets).all(|k| netlist.record(k).passes_test(chip, test))
}

// Whether net k's number differs from those of the nets before it.
fn number_differs(netlist: Netlist<'_>, k: usize) -> bool
    requires { k < netlist.trailer.nets }
    ensures { result ≡ every k (λ j. not (eqb (net_at netlist.entry.bytes.now k).number (net_at netlist.entry.bytes.now j).number)) }
{
    let x = netlist.net_number(k);
    (0..k).all(|j| x != netlist.net_number(j))
}

// Whether two nets have one number.
#[tactic(auto, unfolding(netlist::specs::Netlist::duplicate_net, bounded::specs::Bounded::differ))]
fn duplicate_net(netlist: Netlist<'_>) -> bool
    ensures { result ≡ duplicate_net netlist.entry.bytes.now }
{
    !(0..netlist.trailer.nets).all(|k| number_differs(netlist, k))
}

// Reads a sheet: accepted, or the first of the numbers 1 to 5, 18 and 6 to 9 that applies.
#[tactic(auto, using(netlist::proofs::NetlistLaws::of_refusal), unfolding(netlist::specs::Netlist::bad_length, numbers::specs::Numbers::first_number))]
pub fn open_sheet(s: &[u8]) -> Result<Sheet<'_>, Refusal>
    ensures number { number_of result ≡ refusal s.now }
    ensures sheet { IfOk result (λ sheet. sheet.netlist.bytes.now ≡ s.now) }
{
    if !(netlist::TRAILER_LENGTH..=netlist::MAX_SHEET).contains(&s.len()) {
        return Err(Refusal::Length);
    }
    let measured = Measured {
        bytes: s,
        trailer: netlist::read_trailer(s),
    };
    let netlist = measured.open()?;
    if bad_net(netlist, Test::Channels) {
        return Err(Refusal::Channel);
    }
    if bad_net(netlist, Test::Repeats) {
        return Err(Refusal::Twice);
    }
    if bad_net(netlist, Test::Edges) {
        return Err(Refusal::Joint);
    }
    if duplicate_net(netlist) {
        return Err(Refusal::Name);
    }
    Ok(Sheet { netlist })
}

// Read: the net count and the entry count of an accepted sheet; else the number of its refusal, and zeros.
#[tactic(auto, unfolding(crate::specs::Read::read_of))]
pub fn read(s: &[u8]) -> Counts
    ensures { result ≡ read_of s.now }
{
    match open_sheet(s) {
        Ok(sheet) => {
            let nets = sheet.netlist.trailer.nets;
            let entries = sheet.netlist.entry_total();
            Counts {
                number: 0,
                nets: nets as u32,
                entries: entries as u32,
            }
        }
        Err(refusal) => Counts {
            number: u32::from(refusal),
            nets: 0,
            entries: 0,
        },
    }
}

// The place of record k in the sheet; 0, 0 where the sheet is refused or k is not below the net count.
#[tactic(auto, unfolding(crate::specs::Read::part_of))]
pub fn part_of(s: &[u8], k: usize) -> Part
    ensures { (result ≡ part_of s.now k) × (result.offset + result.len ≤ length s.now) }
{
    match open_sheet(s) {
        Ok(sheet) if k < sheet.netlist.trailer.nets => sheet.netlist.record_part(k),
        _ => Part { offset: 0, len: 0 },
    }
}

// Record: the bytes of record k as a part of the sheet; the empty part, at its start, where the sheet is refused or k is not below the
// net count.
#[tactic(auto, unfolding(crate::specs::Read::record_of))]
pub fn record(s: &[u8], k: usize) -> &[u8]
    ensures { result.now ≡ record_of s.now k }
{
    let part = part_of(s, k);
    &s[part.offset..part.offset + part.len]
}
