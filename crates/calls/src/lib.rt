// Route, Least and Refit: one function answers them.
#![tactic(auto)]

ghost use Rattle.std.specs.Prelude.{◌≡◌, ◌≤◌, length, IfOk};
ghost use Rattle.numbers.specs.Facts.{no_of, number_of};
ghost use Rattle.marks.specs.Marks.{marked_in};
ghost use Rattle.netlist.specs.Netlist.{nets};
ghost use Rattle.routing.specs.Outcomes.{lent, number_before, refused, answer_of, output_of};
ghost use Rattle.net.specs.Nets.{entry_count};
ghost use Rattle.runs.specs.Runs.{old_number, WhenFound};
ghost use Rattle.defects.specs.Facts.{Marked};
ghost use Rattle.calls.specs.Ending.{concluded, output_after, Writes};

use netlist::Sheet;
use numbers::Refusal;
use opening::Inputs;
use routing::{Answer, Call};
use runs::{Job, Routed};
use tracksearch::Ended;

// "Numbers 1–14", and those from 17 on, "come with every other result 0."
fn refused_with(refusal: Refusal) -> Answer
    ensures { result ≡ refused (no_of refusal) }
{
    Answer {
        number: u32::from(refusal),
        width: 0, // "every other result 0"
        trials: 0,
        moved: 0,
    }
}

// The tests of the old ticket, which Refit alone looks at.
fn judge_old(call: Call, inputs: &Inputs<'_>, old: &[u8]) -> Result<(), Refusal>
    ensures { number_of result ≡ old_number call inputs.now.sheet.netlist.bytes.now (marked_in inputs.now.dead) old.now }
{
    match call {
        Call::Route(_) => Ok(()),
        Call::Least(_) => Ok(()),
        Call::Refit => assignment::judge_tracks(inputs, old, true),
    }
}

// Opens what a call is lent: the sheet and the list, both accepted, where Refit's old ticket and the output pass their tests too; or the refusal
// before any trial, which does not look at the budget.
fn open_call<'a>(
    call: Call,
    s: &'a [u8],
    d: &[u8],
    old: &[u8],
    out: &[u8],
) -> Result<Inputs<'a>, Refusal>
    ensures number { number_of result ≡ number_before call (lent s.now d.now old.now 0 out.now) }
    ensures inputs { IfOk result (λ i. (i.sheet.netlist.bytes.now ≡ s.now) × Marked d.now i.dead) }
{
    let inputs = opening::open_inputs(s, d)?; // of the sheet or the list
    judge_old(call, &inputs, old)?;
    assignment::judge_space(inputs.sheet, out.len())?;
    Ok(inputs)
}

// The answer to a run that has ended; the output is written where it found an assignment.
fn conclude(job: Job<'_>, run: Ended<Routed>, out: &mut [u8]) -> Answer
    requires room { entry_count (nets job.sheet.netlist.bytes.now) ≤ length out.old }
    requires writes { WhenFound run (Writes job.sheet.netlist.bytes.now job.plan.now job.sheet.netlist.trailer.nets) }
    ensures { (result ≡ concluded job.entry.budget run)
        × (out.new ≡ output_after job.entry.sheet.netlist.bytes.now job.entry.sheet.netlist.trailer.nets run out.old) }
{
    match run {
        Ended::Found(u, routed) => { // "No refusal writes": here alone
            let w = routed.width;
            writer::write_all(
                job.sheet,
                &job.plan.start,
                &routed.maps,
                &routed.homes,
                w,
                out,
            );
            Answer {
                number: 0,
                width: w as u32,
                trials: u, // those made
                moved: routed.moved as u32,
            }
        }
        Ended::Exhausted(u) => Answer {
            number: u32::from(Refusal::Unroutable),
            width: 0,
            trials: u, // "With 15, trials is the count made"
            moved: 0,
        },
        Ended::Spent => Answer {
            number: u32::from(Refusal::Spent),
            width: 0,
            trials: job.budget, // "with 16 it is the budget"
            moved: 0,
        },
    }
}

// Answers a call on the sheet s without the dead wires of the list d. Route: "the first right ticket at the sheet's width W". Least: "the smallest
// width from 1 to 32 that has a right ticket, and the first ticket there" (minimum channel width). Refit: "a full ticket from a partly filled old
// one" (incremental rerouting): the fewest placed nets get another home track. On success the answer's number is 0 and the output's first bytes are
// the assignment; a refusal writes nothing. Refit alone reads the old ticket.
pub fn answer(call: Call, s: &[u8], d: &[u8], old: &[u8], budget: u32, out: &mut [u8]) -> Answer
    ensures { (result ≡ answer_of call (lent s.now d.now old.now budget out.old))
        × (out.new ≡ output_of call (lent s.now d.now old.now budget out.old)) }
{
    match open_call(call, s, d, old, out) {
        Err(refusal) => refused_with(refusal),
        Ok(inputs) => {
            let plan = planner::make_plan(&inputs);
            let job = Job {
                sheet: inputs.sheet,
                plan: &plan,
                budget,
            };
            let run = job.run(call, old);
            conclude(job, run, out)
        }
    }
}
