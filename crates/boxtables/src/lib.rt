// The tables of switch boxes (01 "Chip and boxes", the table; 02, M-102): built in, or made from the rows of kind 3.
#![tactic(auto)]

ghost use Rattle.std.specs.Prelude.{◌≡◌, ◌<◌, IfOk};
ghost use Rattle.numbers.specs.Facts.{number_of};
ghost use Rattle.switchbox.specs.SwitchBox.{shift_allowed, row_allowed, rows_allowed};
ghost use Rattle.switchbox.specs.Generator.{shift_back, table_from, generated, published};
ghost use Rattle.switchbox.specs.Facts.{Allowed, boxes_of};

use numbers::Refusal;
use switchbox::{Boxes, Fabric, PAIRS, ROWS_KIND, ROWS_LENGTH, Table};

// The columns of the box table.
const COLUMNS: usize = 6;

// "Partner of track i across a box; each pair is read from either end": one constant table of sign and shift per kind and
// ordered side pair. Of each kind its signs and its shifts; in them four from each side, left, top, right, bottom.
const SWITCH: [Table; 3] = [
    // 0 subset
    Table {
        signs: [0, 0, 0, 0, 0, 0, 0, 0, 0, 0, 0, 0, 0, 0, 0, 0],
        shifts: [0, 0, 0, 0, 0, 0, 0, 0, 0, 0, 0, 0, 0, 0, 0, 0],
    },
    // 1 Wilton
    Table {
        signs: [0, 1, 0, 0, 1, 0, 0, 0, 0, 0, 0, 1, 0, 0, 1, 0],
        shifts: [0, 0, 0, 255, 0, 0, 1, 0, 0, 255, 0, 254, 1, 0, 254, 0],
    },
    // 2 universal
    Table {
        signs: [0, 1, 0, 0, 1, 0, 0, 0, 0, 0, 0, 1, 0, 0, 1, 0],
        shifts: [0, 255, 0, 0, 255, 0, 0, 0, 0, 0, 0, 255, 0, 0, 255, 0],
    },
];

// The table of a built-in kind: what the generator makes of the kind's rows.
pub fn built_in(kind: usize) -> Table
    requires { kind < 3 }
    ensures { result ≡ (generated (published kind)).table }
{
    SWITCH[kind]
}

// Whether a shift's byte is from −32 to 31: one from 128 on is negative.
#[tactic(auto, unfolding(switchbox::specs::SwitchBox::shift_allowed, switchbox::specs::SwitchBox::adds, switchbox::specs::SwitchBox::takes))]
fn shift_allowed(b: u8) -> bool
    ensures { result ≡ shift_allowed b }
{
    b <= 31 || 224 <= b
}

// Whether the sign and the shift of column k are in their ranges.
#[tactic(auto, unfolding(switchbox::specs::SwitchBox::row_allowed))]
fn row_allowed(rows: [u8; ROWS_LENGTH], k: usize) -> bool
    requires { k < 6 }
    ensures { result ≡ row_allowed rows k }
{
    rows[2 * k] <= 1 && shift_allowed(rows[2 * k + 1])
}

// Whether every row is in range.
pub fn rows_allowed(rows: [u8; ROWS_LENGTH]) -> bool
    ensures { result ≡ rows_allowed rows }
{
    (0..COLUMNS).all(|k| row_allowed(rows, k))
}

// A shift from the other end: plus has it negated, minus undoes itself.
#[tactic(auto, unfolding(switchbox::specs::Generator::shift_back))]
fn shift_back(sign: u8, b: u8) -> u8
    ensures { result ≡ shift_back sign b }
{
    if sign == 0 { b.wrapping_neg() } else { b }
}

// The signs of the rows, whose columns are left–right, top–bottom, left–top, top–right, right–bottom, bottom–left: the same from both ends.
#[tactic(auto, unfolding(switchbox::specs::Generator::table_from))]
fn signs_of(rows: [u8; ROWS_LENGTH]) -> [u8; PAIRS]
    ensures { result ≡ (table_from rows).signs }
{
    let lr = rows[0];
    let tb = rows[2];
    let lt = rows[4];
    let tr = rows[6];
    let rb = rows[8];
    let bl = rows[10];
    [0, lt, lr, bl, lt, 0, tr, tb, lr, tr, 0, rb, bl, tb, rb, 0]
}

// And their shifts: of each column there and back.
#[tactic(auto, unfolding(switchbox::specs::Generator::table_from))]
fn shifts_of(rows: [u8; ROWS_LENGTH]) -> [u8; PAIRS]
    ensures { result ≡ (table_from rows).shifts }
{
    let lr = rows[1];
    let rl = shift_back(rows[0], lr);
    let tb = rows[3];
    let bt = shift_back(rows[2], tb);
    let lt = rows[5];
    let tl = shift_back(rows[4], lt);
    let tr = rows[7];
    let rt = shift_back(rows[6], tr);
    let rb = rows[9];
    let br = shift_back(rows[8], rb);
    let bl = rows[11];
    let lb = shift_back(rows[10], bl);
    [0, lt, lr, lb, tl, 0, tr, tb, rl, rt, 0, rb, bl, bt, br, 0]
}

// The generator: the table of a box from its rows, or 18 for a sign or a shift out of range.
#[tactic(auto, unfolding(switchbox::specs::Generator::generated))]
pub fn generate(rows: [u8; ROWS_LENGTH]) -> Result<Table, Refusal>
    ensures number { number_of result ≡ (generated rows).number }
    ensures table { IfOk result (λ t. t ≡ (generated rows).table) }
{
    if !rows_allowed(rows) {
        return Err(Refusal::Parameter);
    }
    Ok(Table {
        signs: signs_of(rows),
        shifts: shifts_of(rows),
    })
}

// The fabric with the table of its inner boxes: a built-in one, or the generator's.
#[tactic(auto, using(switchbox::proofs::GeneratorLaws::kind_tables, numbers::proofs::RefusalsLaws::no_refusal))]
pub fn boxes_of(f: Fabric) -> Boxes
    requires { Allowed f }
    ensures { result ≡ boxes_of f }
{
    let table = if f.kind < ROWS_KIND {
        built_in(f.kind)
    } else {
        generate(f.rows).unwrap()
    };
    Boxes { fabric: f, table }
}
