// The text of an answer and its track assignment, written into a caller's buffer; the least-width program prints it.
#![tactic(auto)]

ghost use Rattle.std.specs.Prelude.{◌≡◌, length};
ghost use Rattle.decimal.specs.Put.{Put};
ghost use Rattle.decimal.specs.Facts.{Room, Appended};
ghost use Rattle.net.specs.Net.{size};
ghost use Rattle.net.specs.Nets.{entry_count};
ghost use Rattle.net.specs.Read.{net_read};
ghost use Rattle.netlist.specs.Netlist.{nets};
ghost use Rattle.lines.specs.Lines.{answer_line, entry_text, net_line, net_lines, least_text};

use decimal::Text;
use net::Record;
use netlist::{MAX_TICKET, Netlist, Sheet};
use netsearch::Search;
use routing::{Answer, Call};

// The greatest length of a text: 37 bytes of the first line, 11 of a net's number and line feed, 7 of an entry.
pub const TEXT_MAX: usize = 37 + 64 * 11 + 2048 * 7;

// Appends the first line.
fn put_answer(text: &mut Text<'_>, a: Answer)
    requires { Room (answer_line a) text.old }
    ensures { Appended (answer_line a) text.old text.new }
{
    text.put_field(b"answer ", a.number as u64);
    text.put_field(b" width ", a.width as u64);
    text.put_field(b" trials ", a.trials as u64);
    text.put_byte(b'\n');
}

// Appends an entry's channel and track.
fn put_entry(text: &mut Text<'_>, channel: usize, track: usize)
    requires { Room (entry_text channel track) text.old }
    ensures { Appended (entry_text channel track) text.old text.new }
{
    text.put_field(b" ", channel as u64);
    text.put_field(b".", track as u64);
}

// Appends the line of the net whose record is r.
fn put_net(text: &mut Text<'_>, r: Record<'_>, tracks: &[u8])
    requires sized { length tracks.now ≡ size (net_read r) }
    requires room { Room (net_line (net_read r) tracks.now) text.old }
    ensures { Appended (net_line (net_read r.entry) tracks.now) text.old text.new }
{
    text.put_decimal(r.number() as u64);
    for (i, track) in tracks.iter().enumerate() { // the number and the entries before i are written
        let channel = r.channel(i);
        let track = *track as usize;
        put_entry(text, channel, track);
    }
    text.put_byte(b'\n');
}

// Appends a line for each net of the sheet.
fn put_nets(text: &mut Text<'_>, sheet: Sheet<'_>, ticket: &[u8])
    requires sized { length ticket.now ≡ entry_count (nets sheet.netlist.bytes.now) }
    requires room { Room (net_lines (nets sheet.netlist.bytes.now) ticket.now) text.old }
    ensures { Appended (net_lines (nets sheet.entry.netlist.bytes.now) ticket.now) text.old text.new }
{
    let mut first = 0usize;
    for k in 0..sheet.netlist.trailer.nets { // the lines of the nets before k are written; the bytes of net k start at `first`
        let r = sheet.netlist.record(k);
        let last = first + r.entry_count();
        put_net(text, r, &ticket[first..last]);
        first = last;
    }
}

// Writes the least-width program's text for the bytes s at the start of the buffer, and returns its length; later bytes keep their values.
pub fn least_text(s: &[u8], text: &mut [u8; TEXT_MAX]) -> usize
    ensures { Put (least_text s.now) 0 text.old text.new result }
{
    let mut out = [0u8; MAX_TICKET];
    let none = &s[0..0];
    let a = calls::answer(Call::Least(Search::Plain), s, none, none, 1000000, &mut out);
    let mut text = Text { out: text, len: 0 };
    put_answer(&mut text, a);
    if a.number != 0 {
        return text.len;
    }
    let trailer = netlist::read_trailer(s);
    let sheet = Sheet {
        netlist: Netlist { bytes: s, trailer },
    };
    let total = sheet.netlist.entry_total();
    put_nets(&mut text, sheet, &out[0..total]);
    text.len
}
