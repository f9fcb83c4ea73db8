// Writes the word under the pointer for each place of a formula and the one past its end, case by case. A line has the place, then `ok` and
// the part that is handed back, or `refused` and the number. The parts of a case are the formula and the table. What `oracle/run words` writes
// for the same cases is the file `stdout`.
#![tactic(auto)]

ghost use Rattle.std.specs.Prelude.{◌≤◌};

use case_input::Case;
use std::io;
use std::io::Read;

// More than there are.
const CASES: usize = 1_000;

// One byte more than a formula and a table may have.
const FORMULA: usize = 4_097;

const TABLE: usize = 32_769;

fn main(rt: HostRuntime) -> io::Result<()> {
    let mut cases = rt.reader();
    for _ in 0..CASES {
        let Some(case) = case_input::next_case(&mut cases, FORMULA, TABLE)? else {
            return Ok(());
        };
        answer(&rt, &mut cases, case)?;
    }
    Ok(())
}

// What stands behind the bytes that are read must not count, so it is letters, with which a word would go on.
fn answer<R: Read>(rt: &impl Print, cases: &mut R, case: Case) -> io::Result<()>
    requires { (case.first ≤ 4097) × (case.second ≤ 32769) }
{
    let Case {
        first: n,
        second: m,
    } = case;
    let mut formula = [b'a'; FORMULA];
    let mut table = [b'a'; TABLE];
    read_and_show(rt, cases, &mut formula[..n], &mut table[..m])
}

fn read_and_show<'a, R: Read>(
    rt: &impl Print,
    cases: &mut R,
    formula: &'a mut [u8],
    table: &'a mut [u8],
) -> io::Result<()> {
    filling::read_full(cases, formula)?;
    filling::read_full(cases, table)?;
    show_words(rt, formula, table)
}

fn show_words<'a>(rt: &impl Print, formula: &'a [u8], table: &'a [u8]) -> io::Result<()> {
    for place in 0..formula.len() {
        show_word(rt, formula, table, place)?;
    }
    show_word(rt, formula, table, formula.len())
}

fn show_word<'a>(
    rt: &impl Print,
    formula: &'a [u8],
    table: &'a [u8],
    place: usize,
) -> io::Result<()> {
    print!(rt; "{place}")?;
    let number = word_at::word_number(formula, table, place);
    if number == 0 {
        rt.write_all(b" ok ")?;
        rt.write_all(word_at::word_at(formula, table, place))?;
    } else {
        print!(rt; " refused {number}")?;
    }
    rt.write_all(b"\n")
}
