// The opening of a call that reads a sheet and a list of dead wires (02, M-105): their numbers, and what the call works on.
#![tactic(auto)]

ghost use Rattle.std.specs.Prelude.{◌≡◌, IfOk};
ghost use Rattle.numbers.specs.Numbers.{first_number};
ghost use Rattle.numbers.specs.Facts.{number_of};
ghost use Rattle.switchbox.specs.Facts.{boxes_of};
ghost use Rattle.netlist.specs.Netlist.{fabric_of};
ghost use Rattle.defects.specs.Facts.{Marked};
ghost use Rattle.opening.specs.Opened.{open_conditions};

use marks::CHANNELS;
use netlist::Sheet;
use numbers::Refusal;
use switchbox::Boxes;

// A sheet and a list of dead wires that were read: the sheet with its boxes, and the marks of the list's wires.
#[derive(Clone, Copy)]
pub struct Inputs<'a> {
    pub sheet: Sheet<'a>,
    pub boxes: Boxes,
    pub dead: [u32; CHANNELS],
    ghost made: { boxes ≡ boxes_of (fabric_of sheet.netlist.bytes.now) },
}

// Reads a sheet and a list of dead wires: both accepted, or the first of the sheet's numbers 1 to 9 and 18 and then of the list's 19 and 20 that
// applies. So no caller reads either again.
pub fn open_inputs<'a>(s: &'a [u8], d: &[u8]) -> Result<Inputs<'a>, Refusal>
    ensures number { number_of result ≡ first_number (open_conditions s.now d.now) }
    ensures inputs { IfOk result (λ i. (i.sheet.netlist.bytes.now ≡ s.now) × Marked d.now i.dead) }
{
    let sheet = reader::open_sheet(s)?;
    let count = sheet.netlist.chip().channel_count();
    let dead = defects::marks_of(d, count)?;
    Ok(Inputs {
        sheet,
        boxes: sheet.netlist.boxes(),
        dead,
    })
}
