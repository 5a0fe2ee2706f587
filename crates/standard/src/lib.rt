// Standard: a sheet in standard form, the canonical form of its netlist (02, M-101).
#![tactic(auto)]

ghost use Rattle.std.specs.Prelude.{◌≡◌, ◌++◌, ◌+◌, ◌*◌, ◌≤◌, ◌<◌, length};
ghost use Rattle.numbers.specs.Facts.{number_of};
ghost use Rattle.net.specs.Net.{net_of, size};
ghost use Rattle.net.specs.Read.{net_read};
ghost use Rattle.bounded.specs.Bounded.{joined};
ghost use Rattle.netlist.specs.Netlist.{mark_of};
ghost use Rattle.encoding.specs.Encoding.{u16_bytes, entry_bytes, records_to, offsets_to};
ghost use Rattle.encoding.specs.Facts.{entry_length};
ghost use Rattle.canonical.specs.Canonical.{canonical_net, canonical_nets, canonical_form};
ghost use Rattle.canonical.specs.Facts.{written_of};
ghost use Rattle.canonical.specs.Standard.{Bytes, standard_number, standard_output};
ghost use Rattle.standard.specs.Growth.{Marked, IsTree, NextEntry, record_in_form};

use net::{MAX_ENTRIES, NO_PARENT, Record};
use netlist::Sheet;
use numbers::Refusal;

// How many bytes a u16 has, and an entry.
const U16_LENGTH: usize = 2;

const ENTRY_LENGTH: usize = 4;

// The mark of an entry that is written; the others have the place of their parent, or NO_PARENT.
const WRITTEN: usize = 65534;

// Fills the part with the u16 x, low byte first.
fn put_u16(part: &mut [u8], x: usize)
    requires { (length part.old ≡ 2) × (x ≤ 65535) }
    ensures { part.new ≡ u16_bytes x }
{
    part.copy_from_slice(&(x as u16).to_le_bytes());
}

// Fills the part with the bytes of `from`. (Byte by byte: `copy_from_slice` of a part of any length calls memmove, and the library needs memcpy
// and memset alone.)
fn copy(from: &[u8], part: &mut [u8])
    requires { length part.old ≡ length from.now }
    ensures { part.new ≡ from.now }
{
    for (i, byte) in part.iter_mut().enumerate() { // the first i bytes are copied
        *byte = from[i];
    }
}

// Fills the part with two u16: an entry, its channel and parent.
fn put_pair(part: &mut [u8], x: usize, y: usize)
    requires { (length part.old ≡ 4) × (x ≤ 65535) × (y ≤ 65535) }
    ensures { part.new ≡ u16_bytes x ++ u16_bytes y }
{
    put_u16(&mut part[..U16_LENGTH], x);
    put_u16(&mut part[U16_LENGTH..], y);
}

// A record whose entries are a tree, as each record of an accepted sheet is.
#[derive(Clone, Copy)]
struct Tree<'a> {
    record: Record<'a>,
    ghost tree: { IsTree (net_of record.z record.bytes.now) },
}

impl Tree<'_> {
    // The entry that is written next, behind k others: the first at the net's home; then "the lowest-numbered channel not yet written that has
    // a joint to a written one".
    fn next_entry(self, marks: &[usize; MAX_ENTRIES], k: usize) -> usize
        requires { (k < size (net_read self.record)) × Marked (net_read self.record) (written_of (net_read self.record) k) marks.now }
        ensures { NextEntry (net_read self.entry.record) k result }
    {
        (0..self.record.entry_count())
            .filter(|i| k == 0 || marks[*i] < MAX_ENTRIES)
            .min_by_key(|i| self.record.channel(*i))
            .unwrap()
    }

    // Marks entry j as written at the place k, and with this place each entry that has a joint to it and to none before it.
    fn mark_from(self, marks: &mut [usize; MAX_ENTRIES], k: usize, j: usize)
        requires { NextEntry (net_read self.record) k j × (k < size (net_read self.record)) × Marked (net_read self.record) (written_of (net_read self.record) k) marks.old }
        ensures { Marked (net_read self.entry.record) (written_of (net_read self.entry.record) (k + 1)) marks.new }
    {
        let p = self.record.parent(j);
        for i in 0..self.record.entry_count() { // the entries before i are marked
            if i == j {
                marks[i] = WRITTEN;
            } else if marks[i] == NO_PARENT && (i == p || self.record.parent(i) == j) {
                marks[i] = k;
            }
        }
    }

    // Fills the part with the entries in standard form.
    fn write_entries(self, part: &mut [u8])
        requires { length part.old ≡ entry_length * size (net_read self.record) }
        ensures { part.new ≡ joined (size (net_read self.entry.record)) (entry_bytes (canonical_net (net_read self.entry.record))) }
    {
        let mut marks = [NO_PARENT; MAX_ENTRIES];
        for k in 0..self.record.entry_count() { // the first k entries are written
            let j = self.next_entry(&marks, k);
            let at = ENTRY_LENGTH * k;
            put_pair(
                &mut part[at..at + ENTRY_LENGTH],
                self.record.channel(j),
                marks[j],
            );
            self.mark_from(&mut marks, k, j);
        }
    }

    // Fills the part with the record in standard form, which is as long as the record: its head, net number and entry count, is the record's own.
    fn write(self, part: &mut [u8])
        requires { length part.old ≡ length self.record.bytes.now }
        ensures { part.new ≡ record_in_form self.entry.record.z self.entry.record.bytes.now }
    {
        let head = net::record_length(self.record.z, 0);
        let (front, entries) = part.split_at_mut(head);
        copy(&self.record.bytes[..head], front);
        self.write_entries(entries);
    }
}

// Fills two parts: with the records of the nets in standard form, in rising net number, and with their offsets.
fn write_nets(sheet: Sheet<'_>, records: &mut [u8], directory: &mut [u8])
    requires bytes { Bytes sheet.netlist.bytes.now }
    requires records { length records.old ≡ sheet.netlist.trailer.directory }
    requires offsets { length directory.old ≡ 2 * sheet.netlist.trailer.nets }
    ensures records { records.new ≡ records_to (mark_of sheet.entry.netlist.bytes.now) (canonical_nets sheet.entry.netlist.bytes.now) sheet.entry.netlist.trailer.nets }
    ensures offsets { directory.new ≡ offsets_to (mark_of sheet.entry.netlist.bytes.now) (canonical_nets sheet.entry.netlist.bytes.now) sheet.entry.netlist.trailer.nets }
{
    let order = rank::rising_order(sheet);
    let mut at = 0usize;
    for k in 0..sheet.netlist.trailer.nets { // the first k nets are written, and the next record starts at `at`
        let record = sheet.netlist.record(order[k] as usize);
        let end = at + record.bytes.len();
        Tree { record }.write(&mut records[at..end]);
        let place = U16_LENGTH * k;
        put_u16(&mut directory[place..place + U16_LENGTH], at);
        at = end;
    }
}

// Fills the part with the standard form of the sheet, which is as long as the sheet: what stands behind the directory is the sheet's own.
fn write_form(sheet: Sheet<'_>, part: &mut [u8])
    requires bytes { Bytes sheet.netlist.bytes.now }
    requires part { length part.old ≡ length sheet.netlist.bytes.now }
    ensures { part.new ≡ canonical_form sheet.entry.netlist.bytes.now }
{
    let at = sheet.netlist.trailer.directory;
    let size = U16_LENGTH * sheet.netlist.trailer.nets;
    let (records, rest) = part.split_at_mut(at);
    let (directory, rest) = rest.split_at_mut(size);
    write_nets(sheet, records, directory);
    copy(&sheet.netlist.bytes[at + size..], rest);
}

// Writes the sheet in standard form, or refuses with the first number that applies, and writes nothing.
fn write_standard(s: &[u8], out: &mut [u8]) -> Result<(), Refusal>
    ensures number { number_of result ≡ standard_number s.now out.old }
    ensures output { out.new ≡ standard_output s.now out.old }
{
    let sheet = reader::open_sheet(s)?;
    let len = s.len();
    if out.len() < len {
        return Err(Refusal::Space);
    }
    write_form(sheet, &mut out[..len]);
    Ok(())
}

// Standard: the sheet in standard form. On success gives 0 and writes as many bytes as the sheet has; a refusal gives the first number that
// applies and writes nothing.
pub fn standard(s: &[u8], out: &mut [u8]) -> u32
    ensures { (result ≡ standard_number s.now out.old) × (out.new ≡ standard_output s.now out.old) }
{
    numbers::number_of(write_standard(s, out))
}
