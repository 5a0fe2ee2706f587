// Remove: taking a net out of a track assignment, 01: ticket (02, M-100).
#![tactic(auto)]

ghost use Rattle.std.specs.Prelude.{◌≡◌, [], map, ◌≤◌, length, IfOk};
ghost use Rattle.numbers.specs.Facts.{number_of};
ghost use Rattle.net.specs.Nets.{entry_count};
ghost use Rattle.netlist.specs.Netlist.{nets};
ghost use Rattle.routing.specs.Outcomes.{lent, overwrite, unknown_net};
ghost use Rattle.routing.specs.Remove.{remove_number, left_of, without, remove_output};

use netlist::Sheet;
use numbers::Refusal;

// Whether the sheet has no net of the number x.
fn is_unknown(sheet: Sheet<'_>, x: usize) -> bool
    ensures { result ≡ unknown_net (nets sheet.entry.netlist.bytes.now) x }
{
    (0..sheet.netlist.trailer.nets).all(|k| sheet.netlist.net_number(k) != x)
}

// The sheet of a ticket that the net number x can be taken out of; or the number of Remove: 17 stands after 13 and before 14.
fn judge<'a>(s: &'a [u8], ticket: &[u8], x: usize, out: &[u8]) -> Result<Sheet<'a>, Refusal>
    ensures number { number_of result ≡ remove_number (lent s.now [] ticket.now 0 out.now) x }
    ensures sheet { IfOk result (λ sheet. sheet.netlist.bytes.now ≡ s.now) }
{
    let sheet = assignment::judge(s, &[], ticket, true)?;
    if is_unknown(sheet, x) {
        return Err(Refusal::Stranger);
    }
    assignment::judge_space(sheet, out.len())?;
    Ok(sheet)
}

// What is left of a net's byte: 255 where the net is taken out.
fn left_of(taken: bool, t: u8) -> u8
    ensures { result ≡ left_of taken t }
{
    if taken { nettracks::NO_TRACK as u8 } else { t }
}

// Fills one net's part of the output with what is left of its bytes. (Byte by byte: `copy_from_slice` of a part of any length calls memmove, and
// the library needs memcpy and memset alone.)
fn write_net(own: &[u8], taken: bool, part: &mut [u8])
    requires { length part.old ≡ length own.now }
    ensures { part.new ≡ map (left_of taken) own.now }
{
    for (i, t) in part.iter_mut().enumerate() { // the first i bytes are written
        *t = left_of(taken, own[i]);
    }
}

// "each net's bytes stand together, net after net in the sheet's order": writes the ticket without the net number x.
fn write_without(sheet: Sheet<'_>, ticket: &[u8], x: usize, out: &mut [u8])
    requires { (length ticket.now ≡ entry_count (nets sheet.netlist.bytes.now)) × (entry_count (nets sheet.netlist.bytes.now) ≤ length out.old) }
    ensures { out.new ≡ overwrite (without (nets sheet.entry.netlist.bytes.now) x ticket.now) out.old }
{
    let mut at = 0usize;
    for k in 0..sheet.netlist.trailer.nets { // the bytes of the nets before k are written, and those of net k start at `at`
        let record = sheet.netlist.record(k);
        let end = at + record.entry_count();
        write_net(&ticket[at..end], record.number() == x, &mut out[at..end]);
        at = end;
    }
}

// Takes the net number x out of the ticket, where nothing refuses; a refusal writes nothing.
fn take_out(s: &[u8], ticket: &[u8], x: usize, out: &mut [u8]) -> Result<(), Refusal>
    ensures number { number_of result ≡ remove_number (lent s.now [] ticket.now 0 out.old) x }
    ensures output { out.new ≡ remove_output (lent s.now [] ticket.now 0 out.old) x }
{
    let sheet = judge(s, ticket, x, out)?;
    write_without(sheet, ticket, x, out);
    Ok(())
}

// Remove: "the ticket with that net's bytes 255 and all others as before". On success gives 0 and writes one byte per entry; a refusal gives
// the first number that applies and writes nothing.
pub fn remove(s: &[u8], ticket: &[u8], x: u32, out: &mut [u8]) -> u32
    ensures { (result ≡ remove_number (lent s.now [] ticket.now 0 out.old) x)
        × (out.new ≡ remove_output (lent s.now [] ticket.now 0 out.old) x) }
{
    numbers::number_of(take_out(s, ticket, x as usize, out))
}
