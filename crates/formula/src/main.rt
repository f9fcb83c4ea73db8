// Document 01's program: the definition table from `sheet.defs`, the formula from standard input, the answer to standard output.
//
// Where something cannot be read or written, standard error says why; after a failed read standard output stays empty.
#![tactic(auto)]

mod reading;

use formula_text::{INPUT, OUTPUT, TABLE, TEXT, WORK};
use std::rt::Files;

fn main(rt: HostRuntime) {
    let mut input = [0; INPUT];
    let Some(n) = reading::read_all(&rt, &mut rt.reader(), "standard input", &mut input) else {
        return;
    };
    let mut table = [0; TABLE];
    let Some(m) = read_table(&rt, &input, n, &mut table) else {
        return;
    };
    let mut work = [0; WORK];
    let mut output = [0; OUTPUT];
    let mut text = [0; TEXT];
    let count = formula_text::answer(&input, n, &table, m, &mut work, &mut output, &mut text);
    if let Err(why) = rt.write_all(&text[..count]) {
        reading::say_failed(&rt, "standard output", why);
    }
}

// A table that the answer does not depend on is not read.
fn read_table<R: Files + Eprint + Alloc>(
    rt: &R,
    input: &[u8; INPUT],
    n: usize,
    table: &mut [u8],
) -> Option<usize> {
    if !formula_text::wants_table(input, n) {
        return Some(0);
    }
    reading::read_file(rt, "sheet.defs", table)
}
