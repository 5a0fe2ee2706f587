// What document 02 promises of Remove's own numbers and bytes, alone and beside another call (M-100), and beside tickets that are judged under a
// list of dead wires, which Remove is not lent (M-105), each a function that makes the calls and states it as its contract, as in `promises`.
// The promises stand in specs/ of `answers`. Not for callers: some functions have a `requires`.
#![tactic(auto)]

ghost use Rattle.std.specs.Prelude.{◌≡◌, true, [], ◌≤◌, length, take};
ghost use Rattle.net.specs.Nets.{entry_count};
ghost use Rattle.netlist.specs.Netlist.{WellFormed, nets};
ghost use Rattle.assignment.specs.Check.{number_on};
ghost use Rattle.routing.specs.Outcomes.{lent};
ghost use Rattle.routing.specs.Remove.{RemoveRelisting};
ghost use Rattle.answers.specs.Reading.{TakesExactly};
ghost use Rattle.answers.specs.Removing.{Took, Removes, RemovedAlike, ReadAlike, NoWorse, WayBack};

use answers::Pair;
use routing::{Answer, Call};

// Remove's number, and beside it those of the ticket that it was lent and of the one that it wrote.
#[derive(Clone, Copy)]
pub struct Judged {
    pub before: u32,
    pub removed: u32,
    pub after: u32,
}

// Refit's answer, and Remove's number beside it.
#[derive(Clone, Copy)]
pub struct Removed {
    pub answer: Answer,
    pub removed: u32,
}

// ---- one call

// Remove's numbers, when 0 and 17 come, and every byte written.
pub fn remove_counted(s: &[u8], ticket: &[u8], net: u32, out: &mut [u8]) -> u32
    ensures removes { Removes (lent s.now [] ticket.now 0 out.old) net result out.new }
    ensures numbers { TakesExactly (lent s.now [] ticket.now 0 out.old) net result }
{
    removal::remove(s, ticket, net, out)
}

// ---- two calls

// Remove on two relistings with equal tracks: equal numbers, and on success the same byte for each net number and channel.
pub fn remove_relisted(
    s: &[u8],
    s2: &[u8],
    ticket: &[u8],
    ticket2: &[u8],
    net: u32,
    out: &mut [u8],
    out2: &mut [u8],
) -> Pair<u32>
    requires { RemoveRelisting (lent s.now [] ticket.now 0 out.old) (lent s2.now [] ticket2.now 0 out2.old) }
    ensures { RemovedAlike (lent s.now [] ticket.now 0 out.old) (lent s2.now [] ticket2.now 0 out2.old)
        net result.first result.second out.new out2.new }
{
    let first = removal::remove(s, ticket, net, out);
    let second = removal::remove(s2, ticket2, net, out2);
    Pair { first, second }
}

// Refit and Remove read one ticket alike: each finds none of its numbers exactly where it is legal for its routed nets, for Refit without the
// wires of its list.
pub fn remove_as_refit(
    s: &[u8],
    d: &[u8],
    ticket: &[u8],
    net: u32,
    budget: u32,
    out: &mut [u8],
    out2: &mut [u8],
) -> Removed
    ensures { ReadAlike (lent s.now d.now ticket.now budget out.old) net out2.old
        result.answer out.new result.removed out2.new }
{
    let answer = calls::answer(Call::Refit, s, d, ticket, budget, out);
    let removed = removal::remove(s, ticket, net, out2);
    Removed { answer, removed }
}

// The number of the ticket that a call on s wrote to `out`, its first bytes, one per entry of s, as Refit reads one with the list d.
fn judge_written(s: &[u8], d: &[u8], out: &[u8]) -> u32
    requires { WellFormed s.now × (entry_count (nets s.now) ≤ length out.now) }
    ensures { result ≡ number_on true s.now d.now (take (entry_count (nets s.now)) out.now) }
{
    let entries = ticket_promises::entries_of(s);
    assignment::number_on(s, d, &out[..entries], true)
}

// Remove beside the numbers of tickets under a list of dead wires, as Refit reads one: what it wrote is refused only with the number that the lent
// ticket is refused with.
pub fn remove_judged(s: &[u8], d: &[u8], ticket: &[u8], net: u32, out: &mut [u8]) -> Judged
    ensures { NoWorse (lent s.now [] ticket.now 0 out.old) d.now net
        result.before result.removed out.new result.after }
{
    let before = assignment::number_on(s, d, ticket, true);
    let removed = removal::remove(s, ticket, net, out);
    if removed != 0 {
        return Judged {
            before,
            removed,
            after: removed, // nothing is written
        };
    }
    let after = judge_written(s, d, out);
    Judged {
        before,
        removed,
        after,
    }
}

// Remove of a net from the ticket that a call on s wrote to `new`: its first bytes, one per entry of s.
fn remove_written(s: &[u8], new: &[u8], net: u32, out: &mut [u8]) -> u32
    requires { WellFormed s.now × (entry_count (nets s.now) ≤ length new.now) }
    ensures { Took (lent s.now [] (take (entry_count (nets s.now)) new.now) 0 out.old) net result out.new }
{
    let entries = ticket_promises::entries_of(s);
    removal::remove(s, &new[..entries], net, out)
}

// The way back: where Refit, with a list of dead wires, placed just one net and moved none, taking that net out of what it wrote gives the old
// ticket.
pub fn refit_and_back(
    s: &[u8],
    d: &[u8],
    old: &[u8],
    net: u32,
    budget: u32,
    new: &mut [u8],
    back: &mut [u8],
) -> Removed
    ensures { WayBack (lent s.now d.now old.now budget new.old) net back.old
        result.answer new.new result.removed back.new }
{
    let answer = calls::answer(Call::Refit, s, d, old, budget, new);
    let number = answer.number;
    if number != 0 {
        return Removed {
            answer,
            removed: number, // nothing is written
        };
    }
    let removed = remove_written(s, new, net, back);
    Removed { answer, removed }
}
