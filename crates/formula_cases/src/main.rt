// Answers the cases of standard input by the function that the program `formula` prints. The parts of a case are its input and its table.
// `tests/formula` writes the cases and what is expected.
#![tactic(auto)]

ghost use Rattle.std.specs.Prelude.{◌≤◌};

use case_input::Case;
use formula_text::{INPUT, OUTPUT, TABLE, TEXT, WORK};
use std::io;
use std::io::Read;

// More than there are.
const CASES: usize = 1_000;

fn main(rt: HostRuntime) -> io::Result<()> {
    let mut cases = rt.reader();
    for _ in 0..CASES {
        let Some(case) = case_input::next_case(&mut cases, INPUT, TABLE)? else {
            return Ok(());
        };
        answer(&rt, &mut cases, case)?;
    }
    Ok(())
}

// What stands behind the bytes that are read, or in the buffers before, must not count, so it is no zeros.
fn answer<R: Read>(rt: &impl Print, cases: &mut R, case: Case) -> io::Result<()>
    requires { (case.first ≤ 4099) × (case.second ≤ 32769) }
{
    let Case {
        first: n,
        second: m,
    } = case;
    let mut input = [b'd'; INPUT];
    let mut table = [b'd'; TABLE];
    let mut work = [b'd'; WORK];
    let mut output = [b'd'; OUTPUT];
    let mut text = [b'd'; TEXT];
    filling::read_full(cases, &mut input[..n])?;
    filling::read_full(cases, &mut table[..m])?;
    let count = formula_text::answer(&input, n, &table, m, &mut work, &mut output, &mut text);
    rt.write_all(&text[..count])
}
