// What the formulas print, kept in a buffer: each LaTeX text once, with a newline at each end.
ghost use Rattle.std.specs.Prelude.{◌≡◌, length, IfOk, OnErr};
ghost use Rattle.std.specs.Counts.{IsPrefixLen};
ghost use Rattle.plain_short.specs.Printed.{PrintedRoom, PrintedKept};

use std::io;
use text::Writer;

// The bytes of the buffer.
pub const ROOM: usize = 65_536;

// Writes the formula's LaTeX and keeps it. Answers the bytes in use, which are more than before if the LaTeX is new. What cannot be written is not
// kept.
pub fn print(rt: &impl Print, formula: &[u8], printed: &mut [u8], used: usize) -> io::Result<usize>
    requires { PrintedRoom printed.old used }
    ensures ok { IfOk result (PrintedRoom printed.new) }
    ensures err { OnErr result (printed.new ≡ printed.old) }
{
    let mut line = [b'\n'; 64];
    let end = convert(formula, &mut line);
    if end < 2 {
        rt.write_all(b"refused\n")?;
        return Ok(used);
    }
    rt.write_all(&line[1..end])?;
    Ok(keep(printed, used, &line[..end]))
}

// Puts the formula's LaTeX into the line, behind the first of its newlines. Answers the bytes up to the next newline, or 0 where the call is refused.
fn convert(formula: &[u8], line: &mut [u8]) -> usize
    requires { length line.old ≡ 64 }
    ensures { IsPrefixLen result line.new }
{
    let mut work = [0; 32_768];
    let answer = math_conv::typst_to_latex(
        formula,
        b"",
        true,
        text::ALL_TALL,
        &mut work,
        &mut line[1..63],
    );
    let Ok(n) = answer else {
        return 0;
    };
    n + 2
}

// Adds a text behind those in use, unless it stands there or there is no room for it.
fn keep(printed: &mut [u8], used: usize, s: &[u8]) -> usize
    requires { PrintedRoom printed.old used }
    ensures { PrintedKept printed.old printed.new used result s.now }
{
    if text_search::contains(printed, s) {
        return used;
    }
    let n = s.len();
    if ROOM - used < n {
        return used;
    }
    let behind = Writer {
        to: used,
        cap: n,
        count: 0,
    };
    behind.put_all(printed, s);
    used + n
}
