// What document 02 promises of a sheet marked 57 48 and the sheet marked 57 49 that lists the same (M-106), of the calls' own answers and bytes: each a
// function that makes a call on both and states it as its contract, as in `promises`. The promises stand in specs/ of `answers`. Not for callers:
// some functions have a `requires`.
#![tactic(auto)]

ghost use Rattle.std.specs.Prelude.{◌≡◌, []};
ghost use Rattle.routing.specs.Outcomes.{lent};
ghost use Rattle.answers.specs.Twinning.{ReadOnTwin, RecordedOnTwin, CheckedOnTwin, AnsweredOnTwin, RemovedOnTwin, FormedOnTwin};

use answers::Pair;
use netlist::Part;
use reader::Counts;
use routing::{Answer, Call};

// Read: equal numbers and counts.
pub fn read_twins(s: &[u8], t: &[u8]) -> Pair<Counts>
    ensures { ReadOnTwin s.now t.now result.first result.second }
{
    let first = reader::read(s);
    let second = reader::read(t);
    Pair { first, second }
}

// Record: the part of the twin is 2 bytes longer and starts 2·k bytes later.
pub fn record_twins(s: &[u8], t: &[u8], k: usize) -> Pair<Part>
    ensures { RecordedOnTwin s.now t.now k result.first result.second }
{
    let first = reader::part_of(s, k);
    let second = reader::part_of(t, k);
    Pair { first, second }
}

// Check: equal numbers.
pub fn check_twins(s: &[u8], t: &[u8], d: &[u8], ticket: &[u8]) -> Pair<u32>
    ensures { CheckedOnTwin s.now t.now d.now ticket.now result.first result.second }
{
    let first = assignment::check(s, d, ticket);
    let second = assignment::check(t, d, ticket);
    Pair { first, second }
}

// A call: equal answers and the same bytes in the whole output.
pub fn call_twins(
    call: Call,
    s: &[u8],
    t: &[u8],
    d: &[u8],
    old: &[u8],
    budget: u32,
    out: &mut [u8],
    out2: &mut [u8],
) -> Pair<Answer>
    requires { out2.old ≡ out.old }
    ensures { AnsweredOnTwin call (lent s.now d.now old.now budget out.old) t.now
        result.first result.second out.new out2.new }
{
    let first = calls::answer(call, s, d, old, budget, out);
    let second = calls::answer(call, t, d, old, budget, out2);
    Pair { first, second }
}

// Remove: equal numbers and the same bytes in the whole output.
pub fn remove_twins(
    s: &[u8],
    t: &[u8],
    ticket: &[u8],
    net: u32,
    out: &mut [u8],
    out2: &mut [u8],
) -> Pair<u32>
    requires { out2.old ≡ out.old }
    ensures { RemovedOnTwin (lent s.now [] ticket.now 0 out.old) t.now net
        result.first result.second out.new out2.new }
{
    let first = removal::remove(s, ticket, net, out);
    let second = removal::remove(t, ticket, net, out2);
    Pair { first, second }
}

// Standard: the form of the twin is the twin of the form.
pub fn standard_twins(s: &[u8], t: &[u8], out: &mut [u8], out2: &mut [u8]) -> Pair<u32>
    ensures { FormedOnTwin s.now t.now out.old out2.old result.first result.second out.new out2.new }
{
    let first = standard::standard(s, out);
    let second = standard::standard(t, out2);
    Pair { first, second }
}
