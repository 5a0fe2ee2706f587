// What is promised of the calls' own answers and bytes: definitions and laws. The functions that make the calls and state it as their contracts:
// `promises`, `ticket_promises`, `remove_promises`, `standard_promises`, `twin_promises`.
#![tactic(auto)]

// What two calls give.
#[derive(Clone, Copy)]
pub struct Pair<T> {
    pub first: T,
    pub second: T,
}
