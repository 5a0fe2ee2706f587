// The calls for C and Rust, thin over the proved ones: tools/staticlib makes libtrackrouter.a of them, include/trackrouter.h has
// the declarations. A slice passes as a pointer and a length.
#![tactic(auto)]

ghost use Rattle.std.specs.Prelude.{◌≡◌, ◌+◌, ◌≤◌, length, []};
ghost use Rattle.netlist.specs.Netlist.{part_bytes};
ghost use Rattle.reader.specs.Read.{read_of, part_of, record_of};
ghost use Rattle.assignment.specs.Check.{check_of};
ghost use Rattle.routing.specs.Outcomes.{route, least, refit, lent, answer_of, output_of};
ghost use Rattle.routing.specs.Remove.{remove_number, remove_output};
ghost use Rattle.canonical.specs.Standard.{standard_number, standard_output};

use netlist::Part;
use netsearch::Search;
use reader::Counts;
use routing::{Answer, Call};

// The number that the header has as TRACKROUTER_VERSION: a library that is older or newer than the header gives another.
pub const VERSION: u32 = 8;

#[unsafe(no_mangle)]
pub extern "C" fn trackrouter_version() -> u32
    ensures { result ≡ 8 }
{
    VERSION
}

#[unsafe(no_mangle)]
pub extern "C" fn trackrouter_read(sheet: &[u8]) -> Counts
    ensures { result ≡ read_of sheet.now }
{
    reader::read(sheet)
}

// The place of the record in the sheet: the sheet's part there is what Record gives.
#[tactic(auto, unfolding(reader::specs::Read::record_of))]
#[unsafe(no_mangle)]
pub extern "C" fn trackrouter_record(sheet: &[u8], place: usize) -> Part
    ensures part { (result ≡ part_of sheet.now place) × (result.offset + result.len ≤ length sheet.now) }
    ensures bytes { part_bytes sheet.now result ≡ record_of sheet.now place }
{
    reader::part_of(sheet, place)
}

#[unsafe(no_mangle)]
pub extern "C" fn trackrouter_check(sheet: &[u8], dead: &[u8], ticket: &[u8]) -> u32
    ensures { result ≡ check_of sheet.now dead.now ticket.now }
{
    assignment::check(sheet, dead, ticket)
}

#[unsafe(no_mangle)]
pub extern "C" fn trackrouter_route(
    sheet: &[u8],
    dead: &[u8],
    budget: u32,
    out: &mut [u8],
) -> Answer
    ensures answer { result ≡ answer_of route (lent sheet.now dead.now [] budget out.old) }
    ensures output { out.new ≡ output_of route (lent sheet.now dead.now [] budget out.old) }
{
    let route = Call::Route(Search::Plain);
    calls::answer(route, sheet, dead, &sheet[0..0], budget, out)
}

#[unsafe(no_mangle)]
pub extern "C" fn trackrouter_least(
    sheet: &[u8],
    dead: &[u8],
    budget: u32,
    out: &mut [u8],
) -> Answer
    ensures answer { result ≡ answer_of least (lent sheet.now dead.now [] budget out.old) }
    ensures output { out.new ≡ output_of least (lent sheet.now dead.now [] budget out.old) }
{
    let least = Call::Least(Search::Plain);
    calls::answer(least, sheet, dead, &sheet[0..0], budget, out)
}

#[unsafe(no_mangle)]
pub extern "C" fn trackrouter_refit(
    sheet: &[u8],
    dead: &[u8],
    old: &[u8],
    budget: u32,
    out: &mut [u8],
) -> Answer
    ensures answer { result ≡ answer_of refit (lent sheet.now dead.now old.now budget out.old) }
    ensures output { out.new ≡ output_of refit (lent sheet.now dead.now old.now budget out.old) }
{
    calls::answer(Call::Refit, sheet, dead, old, budget, out)
}

#[unsafe(no_mangle)]
pub extern "C" fn trackrouter_remove(sheet: &[u8], ticket: &[u8], net: u32, out: &mut [u8]) -> u32
    ensures number { result ≡ remove_number (lent sheet.now [] ticket.now 0 out.old) net }
    ensures output { out.new ≡ remove_output (lent sheet.now [] ticket.now 0 out.old) net }
{
    removal::remove(sheet, ticket, net, out)
}

#[unsafe(no_mangle)]
pub extern "C" fn trackrouter_standard(sheet: &[u8], out: &mut [u8]) -> u32
    ensures number { result ≡ standard_number sheet.now out.old }
    ensures output { out.new ≡ standard_output sheet.now out.old }
{
    standard::standard(sheet, out)
}
