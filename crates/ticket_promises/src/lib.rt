// What document 00's demands 2 and 3 promise of one call's own answer and bytes, each a function that makes the call and states it as its
// contract: what Check, with the same list of dead wires, says of the ticket written and of any other, numbers, trials and moves. The promises
// stand in specs/ of `answers`, once over the call. Not for callers: some functions have a `requires`.
#![tactic(auto)]

ghost use Rattle.std.specs.Prelude.{◌≡◌, ◌≤◌, length, take};
ghost use Rattle.net.specs.Nets.{entry_count};
ghost use Rattle.netlist.specs.Netlist.{WellFormed, nets};
ghost use Rattle.assignment.specs.Check.{check_of};
ghost use Rattle.routing.specs.Outcomes.{lent};
ghost use Rattle.answers.specs.Reading.{AnswersExactly};
ghost use Rattle.answers.specs.TicketPromises.{CheckedOn, Passes, Beside, Counted};

use routing::{Answer, Call};

// The answer of a call, and Check's number beside it.
#[derive(Clone, Copy)]
pub struct Checked {
    pub answer: Answer,
    pub check: u32,
}

// ---- a call and Check

// How many bytes a call on s writes: Read's entry count.
pub fn entries_of(s: &[u8]) -> usize
    requires { WellFormed s.now }
    ensures { result ≡ entry_count (nets s.now) }
{
    let counts = reader::read(s);
    counts.entries as usize
}

// Check on the sheet `on` and the list d for the ticket that a call on s wrote to `out`: its first bytes, one per entry of s.
fn check_written(s: &[u8], on: &[u8], d: &[u8], out: &[u8]) -> u32
    requires { WellFormed s.now × (entry_count (nets s.now) ≤ length out.now) }
    ensures { result ≡ check_of on.now d.now (take (entry_count (nets s.now)) out.now) }
{
    let entries = entries_of(s);
    assignment::check(on, d, &out[..entries])
}

// What a call wrote passes Check on the sheet: what Least wrote, on one that differs in W alone and has the width found as its W.
pub fn passes(
    call: Call,
    s: &[u8],
    other: &[u8],
    d: &[u8],
    old: &[u8],
    budget: u32,
    out: &mut [u8],
) -> Checked
    requires { CheckedOn call s.now other.now × (WellFormed s.now → WellFormed other.now) }
    ensures { Passes call (lent s.now d.now old.now budget out.old) other.now
        result.answer out.new result.check }
{
    let answer = calls::answer(call, s, d, old, budget, out);
    let number = answer.number;
    if number != 0 {
        return Checked {
            answer,
            check: number, // nothing is written
        };
    }
    let check = check_written(s, other, d, out);
    Checked { answer, check }
}

// A ticket beside a call: after 15 it does not pass Check; if it passes, what was written does not come after it, and in Refit moves fewer nets, or no
// more. Beside Least it is checked on a sheet that differs in W alone: after 15 it does not pass at any W, nor after a least width at a smaller W.
pub fn beside(
    call: Call,
    s: &[u8],
    other: &[u8],
    d: &[u8],
    ticket: &[u8],
    old: &[u8],
    budget: u32,
    out: &mut [u8],
) -> Checked
    requires { CheckedOn call s.now other.now }
    ensures { Beside call (lent s.now d.now old.now budget out.old) other.now
        result.answer out.new ticket.now result.check }
{
    let answer = calls::answer(call, s, d, old, budget, out);
    let check = assignment::check(other, d, ticket);
    Checked { answer, check }
}

// ---- one call

// A call's numbers with what comes beside them, its trials against its whole run, and the bytes written.
pub fn counted(call: Call, s: &[u8], d: &[u8], old: &[u8], budget: u32, out: &mut [u8]) -> Answer
    ensures counted { Counted call (lent s.now d.now old.now budget out.old) result out.new }
    ensures numbers { AnswersExactly call (lent s.now d.now old.now budget out.old) result.number }
{
    calls::answer(call, s, d, old, budget, out)
}
