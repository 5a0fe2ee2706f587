// Track assignments, 01: tickets. Check, and the tests of a ticket and of an output that other calls share.
#![tactic(auto)]

ghost use Rattle.std.specs.Prelude.{◌≡◌, false, ◌≢◌, length, IfOk};
ghost use Rattle.numbers.specs.Facts.{number_of};
ghost use Rattle.numbers.specs.Numbers.{first_number, space_conditions};
ghost use Rattle.marks.specs.Marks.{marked_in};
ghost use Rattle.net.specs.Nets.{entry_count};
ghost use Rattle.netlist.specs.Netlist.{width_of, nets};
ghost use Rattle.nettracks.specs.declared.TrackTest.TheVariants.{Range};
ghost use Rattle.assignment.specs.Board.{board_with};
ghost use Rattle.assignment.specs.Assignment.{track_out_of_range, wire_conflict};
ghost use Rattle.assignment.specs.Check.{number_on, check_of};
ghost use Rattle.assignment.specs.Facts.{bad_tracks, assignment_number};

use connections::Switches;
use marks::CHANNELS;
use netlist::Sheet;
use nettracks::{NetTracks, TrackTest};
use numbers::Refusal;
use opening::Inputs;

// Whether some net that is looked at does not pass the test of its tracks. The tests but that of ranges want every track in range.
fn bad_tracks(inputs: &Inputs<'_>, b: &[u8], partial: bool, test: TrackTest) -> bool
    requires whole { length b.now ≡ entry_count (nets inputs.now.sheet.netlist.bytes.now) }
    requires in_range { let s = inputs.now.sheet.netlist.bytes.now in test ≢ Range → track_out_of_range partial (width_of s) (nets s) b.now ≡ false }
    ensures { let s = inputs.now.sheet.netlist.bytes.now in result ≡ bad_tracks test partial (board_with s (marked_in inputs.now.dead)) (width_of s) (nets s) b.now }
{
    let netlist = inputs.sheet.netlist;
    let switches = Switches {
        boxes: inputs.boxes,
        width: netlist.trailer.width,
    };
    let mut at = 0usize;
    for k in 0..netlist.trailer.nets { // the nets before k are not looked at or pass, and the bytes of net k start at `at`
        let record = netlist.record(k);
        let end = at + record.entry_count();
        let tracks = &b[at..end];
        if !nettracks::is_skipped(tracks, partial) {
            let net = NetTracks {
                record,
                tracks,
                switches,
            };
            if !net.passes_test(&inputs.dead, test) {
                return true;
            }
        }
        at = end;
    }
    false
}

// Whether a wire is held by two nets, where every track is in range.
// "no wire is held by two nets": a nested loop over nets and entries, left by a label at the first wire found held twice.
fn wire_conflict(sheet: Sheet<'_>, b: &[u8], partial: bool) -> bool
    requires whole { length b.now ≡ entry_count (nets sheet.netlist.bytes.now) }
    requires in_range { let s = sheet.netlist.bytes.now in track_out_of_range partial (width_of s) (nets s) b.now ≡ false }
    ensures { result ≡ wire_conflict partial (nets sheet.entry.netlist.bytes.now) b.now }
{
    let netlist = sheet.netlist;
    let mut taken = [0u32; CHANNELS];
    let mut found = false;
    let mut at = 0usize;
    'nets: for k in 0..netlist.trailer.nets { // taken has the wires of the nets before k, none held twice, and the bytes of net k start at `at`
        let record = netlist.record(k);
        let end = at + record.entry_count();
        let ts = &b[at..end];
        for i in 0..nettracks::wire_count(record, ts, partial) { // taken has the wires of the entries before i too
            let c = record.channel(i);
            let t = net::byte_at(ts, i);
            if marks::is_held(&taken, c, t) {
                found = true;
                break 'nets;
            }
            marks::hold(&mut taken, c, t);
        }
        at = end;
    }
    found
}

// The tests of an accepted sheet's assignment, with the numbers 10 to 13 and 21: the first that applies refuses. Where partial is true, an
// unrouted net is not looked at: so Refit and Remove read a ticket.
pub fn judge_tracks(inputs: &Inputs<'_>, b: &[u8], partial: bool) -> Result<(), Refusal>
    ensures { let s = inputs.now.sheet.netlist.bytes.now in number_of result ≡ assignment_number partial (board_with s (marked_in inputs.now.dead)) (width_of s) (nets s) b.now }
{
    if b.len() != inputs.sheet.netlist.entry_total() {
        return Err(Refusal::Size);
    }
    if bad_tracks(inputs, b, partial, TrackTest::Range) {
        return Err(Refusal::Track);
    }
    if bad_tracks(inputs, b, partial, TrackTest::Switches) {
        return Err(Refusal::Switch);
    }
    if bad_tracks(inputs, b, partial, TrackTest::Whole) {
        return Err(Refusal::Broken);
    }
    if wire_conflict(inputs.sheet, b, partial) {
        return Err(Refusal::Clash);
    }
    Ok(())
}

// The sheet, where it, a list of dead wires and an assignment pass their tests; or the first of the numbers 1 to 13 and 18 to 21 that applies.
pub fn judge<'a>(s: &'a [u8], d: &[u8], b: &[u8], partial: bool) -> Result<Sheet<'a>, Refusal>
    ensures number { number_of result ≡ number_on partial s.now d.now b.now }
    ensures sheet { IfOk result (λ sheet. sheet.netlist.bytes.now ≡ s.now) }
{
    let inputs = opening::open_inputs(s, d)?;
    judge_tracks(&inputs, b, partial)?;
    Ok(inputs.sheet)
}

// Check: 0 where the assignment is legal for the sheet without the wires of the list d, else the first number of 1 to 13 and 18 to 21 that
// applies.
#[tactic(auto, unfolding(crate::specs::Check::check_of))]
pub fn check(s: &[u8], d: &[u8], b: &[u8]) -> u32
    ensures { result ≡ check_of s.now d.now b.now }
{
    number_on(s, d, b, false)
}

// The number of `judge`: 0 where it refuses nothing.
pub fn number_on(s: &[u8], d: &[u8], b: &[u8], partial: bool) -> u32
    ensures { result ≡ number_on partial s.now d.now b.now }
{
    match judge(s, d, b, partial) {
        Ok(_) => 0,
        Err(refusal) => u32::from(refusal),
    }
}

// The test of an output of `len` bytes for an accepted sheet's assignment: 14 where it is too short.
pub fn judge_space(sheet: Sheet<'_>, len: usize) -> Result<(), Refusal>
    ensures { number_of result ≡ first_number (space_conditions (entry_count (nets sheet.entry.netlist.bytes.now)) len) }
{
    if len < sheet.netlist.entry_total() {
        return Err(Refusal::Space);
    }
    Ok(())
}
