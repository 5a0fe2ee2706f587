// The built-in table beside the generator's output (02, M-102): what is promised of the two calls' own results.
#![tactic(auto)]

ghost use Rattle.std.specs.Prelude.{◌≡◌, Ok};
ghost use Rattle.switchbox.specs.Generator.{generated, published};
ghost use Rattle.switchbox.specs.Facts.{Undone};
ghost use Rattle.switchbox_promises.specs.Tables.{kind_of};

use numbers::Refusal;
use switchbox::{ROWS_LENGTH, Table};

// The built-in kinds, by the numbers that a sheet has for them.
#[derive(Clone, Copy)]
pub enum Kind {
    Subset = 0,
    Wilton = 1,
    Universal = 2,
}

// The built-in table of a kind, and what the generator gives for the kind's rows.
#[derive(Clone, Copy)]
pub struct Tables {
    pub built_in: Table,
    pub generated: Result<Table, Refusal>,
}

// The rows of the built-in kinds: a sign (0 plus, 1 minus) and a shift, two's complement, for each column of the box table.
const ROWS: [[u8; ROWS_LENGTH]; 3] = [
    [0, 0, 0, 0, 0, 0, 0, 0, 0, 0, 0, 0],
    [0, 0, 0, 0, 1, 0, 0, 1, 1, 254, 0, 1],
    [0, 0, 0, 0, 1, 255, 0, 0, 1, 255, 0, 0],
];

// "the built-in table is its output", for kinds 0, 1 and 2 together; and "its inverse rule", 01: from the other end it gives every track back.
pub fn built_in_generated(kind: Kind) -> Tables
    ensures output { result.generated ≡ Ok result.built_in }
    ensures table { result.built_in ≡ (generated (published (kind_of kind))).table }
    ensures inverse { Undone result.built_in }
{
    let k = kind as usize;
    let built_in = boxtables::built_in(k);
    let generated = boxtables::generate(ROWS[k]);
    Tables {
        built_in,
        generated,
    }
}
