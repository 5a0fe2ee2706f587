// What Route, Least, Refit and Remove answer; their definitions are in specs/, the theorems about them in proofs/.
#![tactic(auto)]

use netsearch::Search;

// What is asked: Route and Least by a search, or Refit, whose old ticket stands beside it.
#[derive(Clone, Copy)]
pub enum Call {
    Route(Search),
    Least(Search),
    Refit,
}

#[repr(C)]
#[derive(Clone, Copy)]
pub struct Answer {
    pub number: u32,
    pub width: u32,
    pub trials: u32,
    pub moved: u32,
}
