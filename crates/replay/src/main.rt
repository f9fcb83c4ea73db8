// Replays the recorded cases of `cases.bin`, which the judge has answered, with the entry. The file's format is in oracle/README.md.
//
// Each case is called as it is recorded; each accepted one also with the output exactly full, with the output one byte short and
// with the work buffer one byte short. Old contents stand in both buffers before each call.
#![tactic(auto)]

mod calls;
mod case_file;
mod summary;

ghost use Rattle.std.specs.Prelude.{◌≤◌, length};
ghost use Rattle.replay.specs.Fits.{CaseFits};

use calls::Texts;
use case_file::Case;
use std::io::Read;
use std::{fs, io};
use summary::Tally;

// Where the old contents of a case's buffers may begin, and how many bytes they are taken from.
const STARTS: usize = 256;

const OLD: usize = 41_216;

// The bytes of a case that there is room for.
const BODY: usize = 65_536;

fn main(rt: HostRuntime) -> io::Result<()> {
    match fs::open(&rt, "cases.bin") {
        Ok(mut file) => replay_file(&rt, &mut file),
        Err(why) => eprintln!(rt; "cases.bin: {why}"),
    }
}

fn replay_file<R: Read>(rt: &impl Print, file: &mut R) -> io::Result<()> {
    let Some(count) = case_file::read_head(file) else {
        return println!(rt; "cases.bin is no file of cases");
    };
    let mut tally = Tally::new();
    for i in 0..count {
        if !replay_next(rt, file, i, &mut tally)? {
            return println!(rt; "cases.bin breaks off in case {i}");
        }
    }
    if !case_file::is_at_end(file) {
        return println!(rt; "cases.bin goes on behind its last case");
    }
    tally.write_summary(rt, count)
}

// Whether there was a case to replay.
fn replay_next<R: Read>(
    rt: &impl Print,
    file: &mut R,
    i: usize,
    tally: &mut Tally,
) -> io::Result<bool> {
    let mut body = [0; BODY];
    let Some(case) = case_file::read_case(file, &mut body) else {
        return Ok(false);
    };
    let is_right = replay_case(rt, i, case, &body)?;
    tally.note(case, is_right);
    Ok(true)
}

fn replay_case(rt: &impl Print, i: usize, case: Case, body: &[u8]) -> io::Result<bool>
    requires case_fits { CaseFits case }
    requires in_bounds { 65536 ≤ length body.now }
{
    let mut old = [0; OLD];
    calls::fill_old(&mut old);
    let start = i % STARTS;
    let table = case.formula;
    let latex = table + case.table;
    let end = latex + case.latex;
    let texts = Texts {
        formula: &body[..table],
        table: &body[table..latex],
        latex: &body[latex..end],
        old: &old[start..],
    };
    calls::replay(rt, i, case, texts)
}
