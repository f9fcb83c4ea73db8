// The file of recorded cases: its head, and case after case. Numbers have their most significant byte first.
ghost use Rattle.std.specs.Prelude.{◌≡◌, ◌+◌, ◌*◌, ◌<◌, ◌≤◌, length, slice_index, IfSome};
ghost use Rattle.replay.specs.Fits.{CaseFits};
ghost use Rattle.replay.specs.Recorded.{refusal_of};

use super::calls::Setting;
use std::io::Read;

// The longest buffers, and the longest formula and table together, that there is room for.
pub const MOST_WORK: usize = 40_960;

pub const MOST_OUTPUT: usize = 8_192;

const MOST: usize = 57_344;

// What stands before a case's bytes.
const HEADER: usize = 18;

// The family; what the call is lent and answers; the lengths of the formula, the table and the LaTeX.
#[derive(Clone, Copy)]
pub struct Case {
    pub family: u8,
    pub setting: Setting,
    pub formula: usize,
    pub table: usize,
    pub latex: usize,
}

// How many cases follow, if this is a file of cases.
pub fn read_head<R: Read>(file: &mut R) -> Option<usize> {
    let mut line = [0; 17];
    let mut count = [0; 4];
    file.read_exact(&mut line).ok()?;
    file.read_exact(&mut count).ok()?;
    if line != *b"jistranu cases 2\n" {
        return None;
    }
    Some(four(&count, 0))
}

// The next case, whose formula, table and LaTeX come to stand in the body, if it is whole and there is room for it.
pub fn read_case<R: Read>(file: &mut R, body: &mut [u8]) -> Option<Case>
    requires { 65536 ≤ length body.old }
    ensures { IfSome result CaseFits }
{
    let mut header = [0; HEADER];
    file.read_exact(&mut header).ok()?;
    let case = fitting(case_of(&header))?;
    let size = case.formula + case.table + case.latex;
    file.read_exact(&mut body[..size]).ok()?;
    Some(case)
}

// Whether nothing is left to read.
pub fn is_at_end<R: Read>(file: &mut R) -> bool {
    file.read_exact(&mut [0; 1]).is_err()
}

fn case_of(header: &[u8]) -> Case
    requires { 18 ≤ length header.now }
{
    Case {
        family: header[0],
        setting: Setting {
            display: header[1] == 1,
            field: u32::from(header[2]),
            work: four(header, 3),
            output: two(header, 7),
            refusal: refusal_of(u64::from(header[15])),
        },
        formula: two(header, 9),
        table: four(header, 11),
        latex: two(header, 16),
    }
}

// The refusal that a case records by its number: 0 stands for none.
fn refusal_of(number: u64) -> Option<u64>
    ensures { result ≡ refusal_of number }
{
    if number == 0 { None } else { Some(number) }
}

// The case, if there is room for it.
fn fitting(case: Case) -> Option<Case>
    ensures { IfSome result CaseFits }
{
    let fits = case.setting.work <= MOST_WORK
        && case.setting.output <= MOST_OUTPUT
        && case.latex <= MOST_OUTPUT
        && case.formula <= MOST
        && case.table <= MOST - case.formula;
    if fits { Some(case) } else { None }
}

fn two(s: &[u8], at: usize) -> usize
    requires { at + 2 ≤ length s.now }
    ensures value { result ≡ slice_index s.now at * 256 + slice_index s.now (at + 1) }
    ensures upper_bound { result < 65536 }
{
    usize::from(s[at]) * 256 + usize::from(s[at + 1])
}

fn four(s: &[u8], at: usize) -> usize
    requires { at + 4 ≤ length s.now }
{
    two(s, at) * 65_536 + two(s, at + 2)
}
