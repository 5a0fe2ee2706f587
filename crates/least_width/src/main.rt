// The least-width program: reads a sheet from standard input and writes `lines::least_text` of it.
#![tactic(auto)]

ghost use Rattle.std.specs.Prelude.{◌≡◌, ◌≤◌, length, take, IfOk, IfSome, OnOk};
ghost use Rattle.std.specs.Io.KnownBytes.{Appends};
ghost use Rattle.lines.specs.Lines.{least_text};

use std::io;
use std::io::{Read, Write};

// One byte more than the longest sheet, so that longer input still shows as too long.
const SHEET_MAX: usize = 8729;

// Reads until the buffer is full or the input ends, and returns how many bytes were read.
fn read_full<R: Read>(input: &mut R, buffer: &mut [u8]) -> io::Result<usize>
    ensures bound { IfOk result (λ n. n ≤ length buffer.new) }
    ensures bytes { IfOk result (λ n. IfSome (R.remaining input.old) (λ xs. take n buffer.new ≡ take (length buffer.new) xs)) }
{
    let mut done = 0;
    while done < buffer.len() {
        let n = input.read(&mut buffer[done..])?;
        if n == 0 {
            break;
        }
        done += n;
    }
    Ok(done)
}

// Writes the text of the sheet that is the input, or its first bytes where it is longer than any sheet.
fn answer<R: Read, W: Write>(input: &mut R, output: &mut W) -> io::Result<()>
    ensures { OnOk result (IfSome (R.remaining input.old)
        (λ xs. Appends (W.contents output.old) (W.contents output.new) (least_text (take 8729 xs)))) }
{
    let mut sheet = [0u8; SHEET_MAX];
    let n = read_full(input, &mut sheet)?;
    let mut text = [0u8; lines::TEXT_MAX];
    let m = lines::least_text(&sheet[..n], &mut text);
    output.write_all(&text[..m])
}

fn main(rt: HostRuntime) -> io::Result<()> {
    answer(&mut rt.stdin(), &mut rt.stdout())
}
