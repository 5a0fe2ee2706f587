// What document 02 promises of Standard's own numbers and bytes, alone and beside other calls (M-101), each a function that makes the calls and
// states it as its contract, as in `promises`. The promises stand in specs/ of `answers`. Not for callers.
#![tactic(auto)]

ghost use Rattle.std.specs.Prelude.{◌≡◌};
ghost use Rattle.routing.specs.Outcomes.{lent, refused};
ghost use Rattle.answers.specs.Reading.{FormsExactly};
ghost use Rattle.answers.specs.Forming.{Forms, Compared, FormedTwice, AnsweredAlike, CheckedAlike};

use answers::Pair;
use routing::{Answer, Call};

// Standard's number, and beside it what two calls give, on the sheet and on its standard form.
#[derive(Clone, Copy)]
pub struct OnForm<T> {
    pub standard: u32,
    pub first: T,
    pub second: T,
}

// ---- Standard alone

// Standard's numbers, when 0 and 14 come, and every byte written: an accepted relisting in the order of 02.
pub fn standard_formed(s: &[u8], out: &mut [u8]) -> u32
    ensures forms { Forms s.now out.old result out.new }
    ensures numbers { FormsExactly s.now out.old result }
{
    standard::standard(s, out)
}

// The standard forms of two sheets: equal bytes exactly if these have the same nets, channels and joints.
pub fn standard_compared(s: &[u8], t: &[u8], out: &mut [u8], out2: &mut [u8]) -> Pair<u32>
    ensures { Compared s.now t.now out.old out2.old result.first result.second out.new out2.new }
{
    let first = standard::standard(s, out);
    let second = standard::standard(t, out2);
    Pair { first, second }
}

// The standard form of a standard form: a second call changes nothing.
pub fn standard_twice(s: &[u8], out: &mut [u8], out2: &mut [u8]) -> Pair<u32>
    ensures { FormedTwice s.now out.old out2.old result.first result.second out.new out2.new }
{
    let first = standard::standard(s, out);
    if first != 0 {
        return Pair {
            first,
            second: first,
        };
    }
    let second = standard::standard(&out[..s.len()], out2);
    Pair { first, second }
}

// ---- beside other calls, which are lent one list of dead wires on the sheet and on its form

// What comes where Standard refuses: no call is made.
fn refused_with(number: u32) -> OnForm<Answer>
    ensures { (result.standard ≡ number) × (result.first ≡ refused number) × (result.second ≡ refused number) }
{
    let none = Answer {
        number,
        width: 0,
        trials: 0,
        moved: 0,
    };
    OnForm {
        standard: number,
        first: none,
        second: none,
    }
}

// A call on a sheet and on its standard form, with old tickets of the same byte for each net number and channel: equal answers, and on success the same
// byte for each net number and channel.
pub fn on_form(
    call: Call,
    s: &[u8],
    d: &[u8],
    old: &[u8],
    old2: &[u8],
    budget: u32,
    form: &mut [u8],
    out: &mut [u8],
    out2: &mut [u8],
) -> OnForm<Answer>
    ensures { AnsweredAlike call (lent s.now d.now old.now budget out.old) form.old old2.now out2.old
        result.standard form.new result.first result.second out.new out2.new }
{
    let number = standard::standard(s, form);
    if number != 0 {
        return refused_with(number);
    }
    let len = s.len();
    let first = calls::answer(call, s, d, old, budget, out);
    let second = calls::answer(call, &form[..len], d, old2, budget, out2);
    OnForm {
        standard: number,
        first,
        second,
    }
}

// Check on a sheet and on its standard form, of tickets of the same byte for each net number and channel: equal numbers.
pub fn check_on_form(
    s: &[u8],
    d: &[u8],
    ticket: &[u8],
    ticket2: &[u8],
    form: &mut [u8],
) -> OnForm<u32>
    ensures { CheckedAlike s.now d.now form.old ticket.now ticket2.now result.standard form.new result.first result.second }
{
    let number = standard::standard(s, form);
    if number != 0 {
        return OnForm {
            standard: number,
            first: number,
            second: number,
        };
    }
    let len = s.len();
    let first = assignment::check(s, d, ticket);
    let second = assignment::check(&form[..len], d, ticket2);
    OnForm {
        standard: number,
        first,
        second,
    }
}
