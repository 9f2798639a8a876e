// A table file from a reader, and its text to a writer.
#![tactic(auto)]

ghost use Rattle.std.specs.Prelude.{◌≤◌, ◌<◌, IfOk, IfSome, OnOk, length, take};
ghost use Rattle.std.specs.Io.KnownBytes.{Appends, Consumes, IsAtEnd};
ghost use Rattle.sheets.specs.Sheets.{sheet_text};

use std::io;
use std::io::{Read, Write};

// Reads until the bytes are full or the input ends, and returns how many bytes it put at their start. std's read_exact refuses an input that ends early, and
// its read_to_end asks for a heap.
pub fn read_full<R: Read>(input: &mut R, bytes: &mut [u8]) -> io::Result<usize>
    ensures in_bounds { IfOk result (λ n. n ≤ length bytes.new) }
    ensures read { IfOk result (λ n. Consumes (R.remaining input.old) (R.remaining input.new) (take n bytes.new)) }
    ensures end { IfOk result (λ n. n < length bytes.new → IsAtEnd (R.remaining input.new)) }
{
    let mut done = 0;
    while done < bytes.len() {
        let n = input.read(&mut bytes[done..])?;
        if n == 0 {
            return Ok(done);
        }
        done += n;
    }
    Ok(done)
}

// The text of a table file, whatever its length. The longest table file has 1,459 bytes. One byte more is read, so that a longer input is not taken for a
// shorter one.
pub fn print_sheet<R: Read, W: Write>(input: &mut R, output: &mut W) -> io::Result<()>
    ensures { OnOk result (IfSome (R.remaining input.old) (λ bytes. Appends (W.contents output.old) (W.contents output.new) (sheet_text bytes))) }
{
    let mut file = [0u8; 1460];
    let n = read_full(input, &mut file)?;
    let mut room = [0u8; 131072];
    let m = sheets::write_sheet(&file[..n], &mut room);
    output.write_all(&room[..m])
}
