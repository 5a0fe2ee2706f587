// What document 00's demand 3 and document 02 promise of two calls' own answers and bytes, each a function that makes the calls and states it as
// its contract: relistings, larger budgets, other widths, other lists of dead wires (M-105); and what Read, Record and Check give. The promises
// stand in specs/ of `answers`, once over the call. Of one call and its ticket: `ticket_promises`. Not for callers: some functions have a
// `requires`.
#![tactic(auto)]

ghost use Rattle.std.specs.Prelude.{◌≡◌, ◌≤◌};
ghost use Rattle.reader.specs.Read.{read_of};
ghost use Rattle.assignment.specs.Check.{check_of};
ghost use Rattle.routing.specs.Outcomes.{lent};
ghost use Rattle.routing.specs.Equivalent.{Relisting};
ghost use Rattle.routing.specs.Results.{IsOneOf, read_numbers, check_numbers};
ghost use Rattle.answers.specs.Reading.{Reads, Records, Checks};
ghost use Rattle.answers.specs.Promises.{Relisted, Raised, DifferInWidth, AnyWidth, TwoLists, CheckedTwice};

use answers::Pair;
use netsearch::Search;
use reader::Counts;
use routing::{Answer, Call};

// ---- two calls

// A call on two relistings: equal answers, and on success the same byte for each net number and channel.
pub fn relisted(
    call: Call,
    s: &[u8],
    s2: &[u8],
    d: &[u8],
    e: &[u8],
    old: &[u8],
    old2: &[u8],
    budget: u32,
    out: &mut [u8],
    out2: &mut [u8],
) -> Pair<Answer>
    requires { Relisting call (lent s.now d.now old.now budget out.old) (lent s2.now e.now old2.now budget out2.old) }
    ensures { Relisted call (lent s.now d.now old.now budget out.old) (lent s2.now e.now old2.now budget out2.old)
        result.first result.second out.new out2.new }
{
    let first = calls::answer(call, s, d, old, budget, out);
    let second = calls::answer(call, s2, e, old2, budget, out2);
    Pair { first, second }
}

// A call with two budgets: where the first number is not 16, equal answers and the same bytes in the whole output.
pub fn budgets(
    call: Call,
    s: &[u8],
    d: &[u8],
    old: &[u8],
    budget: u32,
    larger: u32,
    out: &mut [u8],
    out2: &mut [u8],
) -> Pair<Answer>
    requires { (budget ≤ larger) × (out2.old ≡ out.old) }
    ensures { Raised call (lent s.now d.now old.now budget out.old) larger
        result.first result.second out.new out2.new }
{
    let first = calls::answer(call, s, d, old, budget, out);
    let second = calls::answer(call, s, d, old, larger, out2);
    Pair { first, second }
}

// Least on two accepted sheets that differ in W alone: equal answers and the same bytes in the whole output.
pub fn least_any_width(
    h: Search,
    s: &[u8],
    other: &[u8],
    d: &[u8],
    old: &[u8],
    budget: u32,
    out: &mut [u8],
    out2: &mut [u8],
) -> Pair<Answer>
    requires { DifferInWidth s.now other.now × (out2.old ≡ out.old) }
    ensures { AnyWidth h (lent s.now d.now old.now budget out.old) other.now
        result.first result.second out.new out2.new }
{
    let first = calls::answer(Call::Least(h), s, d, old, budget, out);
    let second = calls::answer(Call::Least(h), other, d, old, budget, out2);
    Pair { first, second }
}

// A call with two lists of dead wires: equal answers and the same bytes in the whole output where the lists have the same items in any order, and
// where both are accepted and name the same wires below W, in Least below 32.
pub fn lists(
    call: Call,
    s: &[u8],
    d: &[u8],
    e: &[u8],
    old: &[u8],
    budget: u32,
    out: &mut [u8],
    out2: &mut [u8],
) -> Pair<Answer>
    requires { out2.old ≡ out.old }
    ensures { TwoLists call (lent s.now d.now old.now budget out.old) e.now
        result.first result.second out.new out2.new }
{
    let first = calls::answer(call, s, d, old, budget, out);
    let second = calls::answer(call, s, e, old, budget, out2);
    Pair { first, second }
}

// Check with two lists of dead wires: equal numbers, as a call's answers.
pub fn check_lists(s: &[u8], d: &[u8], e: &[u8], ticket: &[u8]) -> Pair<u32>
    ensures { CheckedTwice s.now d.now e.now ticket.now result.first result.second }
{
    let first = assignment::check(s, d, ticket);
    let second = assignment::check(s, e, ticket);
    Pair { first, second }
}

// ---- one call

// Read's number, when it comes, and its counts.
pub fn read_numbers(s: &[u8]) -> Counts
    ensures uses { (result ≡ read_of s.now) × IsOneOf result.number read_numbers }
    ensures exactly { Reads s.now result }
{
    reader::read(s)
}

// Record's bytes: those of the record, or none.
pub fn record_bytes(s: &[u8], k: usize) -> &[u8]
    ensures { Records s.now k result.now }
{
    reader::record(s, k)
}

// Check's number, and when it comes.
pub fn check_numbers(s: &[u8], d: &[u8], ticket: &[u8]) -> u32
    ensures uses { (result ≡ check_of s.now d.now ticket.now) × IsOneOf result check_numbers }
    ensures exactly { Checks s.now d.now ticket.now result }
{
    assignment::check(s, d, ticket)
}
