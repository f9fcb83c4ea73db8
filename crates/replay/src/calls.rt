// The calls of a case, and what differs from the recorded answer.
ghost use Rattle.std.specs.Prelude.{◌≡◌, ◌≤◌, true, ◌++◌, length, drop, replicate, OnOk};
ghost use Rattle.spec.specs.Result.{most_symbols};
ghost use Rattle.replay.specs.Fits.{CaseFits};
ghost use Rattle.replay.specs.Recorded.{Agrees, recorded, left_by};

use super::case_file::{Case, MOST_OUTPUT, MOST_WORK};
use super::summary::tell;
use math_conv::Answer;
use std::{fmt, io};

// What a call is lent, and the number of the refusal that it is to answer, if any.
#[derive(Clone, Copy)]
pub struct Setting {
    pub display: bool,
    pub field: u32,
    pub work: usize,
    pub output: usize,
    pub refusal: Option<u64>,
}

// A case's bytes, and the old contents of the buffers.
#[derive(Clone, Copy)]
pub struct Texts<'a> {
    pub formula: &'a [u8],
    pub table: &'a [u8],
    pub latex: &'a [u8],
    pub old: &'a [u8],
}

#[derive(Clone, Copy)]
pub enum Difference {
    Number,
    Count,
    Bytes,
    Output,
    Work,
}

impl fmt::Display for Difference {
    fn fmt<W: fmt::Write>(&self, f: &mut fmt::Formatter<W>) -> fmt::Result {
        f.write_str(match self {
            Difference::Number => "another answer",
            Difference::Count => "another byte count",
            Difference::Bytes => "other bytes",
            Difference::Output => "the rest of the output was touched",
            Difference::Work => "the work buffer is not left as it should be",
        })
    }
}

// All calls of a case; whether nothing differs. An accepted one is called again with the output exactly full, with the output one byte short
// and with the work buffer one byte short.
pub fn replay(rt: &impl Print, i: usize, case: Case, texts: Texts) -> io::Result<bool>
    requires case_fits { CaseFits case }
    requires latex_len_bound { length texts.latex.now ≤ most_symbols }
    requires in_bounds { 40960 ≤ length texts.old.now }
{
    let family = case.family;
    let setting = case.setting;
    let is_right = replay_with(rt, i, family, "as recorded", setting, texts)?;
    if setting.refusal.is_some() {
        return Ok(is_right);
    }
    let n = texts.latex.len();
    let full = Setting {
        output: n,
        ..setting
    };
    let is_full_right = replay_with(rt, i, family, "with a full output", full, texts)?;
    let mut is_short_right = true;
    if 0 < n {
        let short = Setting {
            output: n - 1,
            refusal: Some(10),
            ..setting
        };
        is_short_right = replay_with(rt, i, family, "with a short output", short, texts)?;
    }
    let narrow = Setting {
        work: 32_767,
        refusal: Some(4),
        ..setting
    };
    let is_narrow_right = replay_with(rt, i, family, "with a narrow work buffer", narrow, texts)?;
    Ok(is_right & is_full_right & is_short_right & is_narrow_right)
}

fn replay_with(
    rt: &impl Print,
    i: usize,
    family: u8,
    how: &str,
    setting: Setting,
    texts: Texts,
) -> io::Result<bool>
    requires work_bound { setting.work ≤ 40960 }
    requires output_le_most_symbols { setting.output ≤ most_symbols }
    requires in_bounds { 40960 ≤ length texts.old.now }
{
    tell(rt, i, family, how, call(setting, texts))
}

// Calls the entry on buffers of the setting's lengths.
fn call(setting: Setting, texts: Texts) -> Result<(), Difference>
    requires work_bound { setting.work ≤ 40960 }
    requires output_le_most_symbols { setting.output ≤ most_symbols }
    requires in_bounds { 40960 ≤ length texts.old.now }
{
    let w = setting.work;
    let o = setting.output;
    let mut work = [0; MOST_WORK];
    let mut output = [0; MOST_OUTPUT];
    call_on(setting, texts, &mut work[..w], &mut output[..o])
}

// Calls the entry on buffers with old contents.
fn call_on(
    setting: Setting,
    texts: Texts,
    work: &mut [u8],
    output: &mut [u8],
) -> Result<(), Difference>
    requires work_in_bounds { length work.old ≤ length texts.old.now }
    requires output_in_bounds { length output.old ≤ length texts.old.now }
{
    let old_work = &texts.old[..work.len()];
    let old_output = &texts.old[..output.len()];
    work.copy_from_slice(old_work);
    output.copy_from_slice(old_output);
    let answer = math_conv::typst_to_latex(
        texts.formula,
        texts.table,
        setting.display,
        setting.field,
        work,
        output,
    );
    if !is_left_right(setting.refusal, work, old_work) {
        return Err(Difference::Work);
    }
    compare(answer, setting.refusal, texts.latex, output, old_output)
}

// The answer and the output afterwards.
fn compare(
    answer: Answer,
    refusal: Option<u64>,
    latex: &[u8],
    output: &[u8],
    old: &[u8],
) -> Result<(), Difference>
    requires { length output.now ≡ length old.now }
    ensures { OnOk result (Agrees (recorded refusal latex.now) answer old.now output.now) }
{
    match answer {
        Ok(n) => compare_done(n, refusal, latex, output, old),
        Err(why) => compare_refused(u64::from(why), refusal, output, old),
    }
}

fn compare_done(
    n: usize,
    refusal: Option<u64>,
    latex: &[u8],
    output: &[u8],
    old: &[u8],
) -> Result<(), Difference>
    requires { length output.now ≡ length old.now }
    ensures { OnOk result ((refusal ≡ None) × (n ≡ length latex.now) × (output.now ≡ latex.now ++ drop n old.now)) }
{
    if refusal.is_some() {
        return Err(Difference::Number);
    }
    if n != latex.len() || output.len() < n {
        return Err(Difference::Count);
    }
    if &output[..n] != latex {
        return Err(Difference::Bytes);
    }
    if &output[n..] != &old[n..] {
        return Err(Difference::Output);
    }
    Ok(())
}

fn compare_refused(
    found: u64,
    refusal: Option<u64>,
    output: &[u8],
    old: &[u8],
) -> Result<(), Difference>
    ensures { OnOk result ((refusal ≡ Some found) × (output.now ≡ old.now)) }
{
    if refusal != Some(found) {
        return Err(Difference::Number);
    }
    if output != old {
        return Err(Difference::Output);
    }
    Ok(())
}

// The work buffer afterwards: untouched after number 4, and else zero.
fn is_left_right(refusal: Option<u64>, work: &[u8], old: &[u8]) -> bool
    ensures { result ≡ true → work.now ≡ left_by refusal old.now (length work.now) }
{
    if refusal == Some(4) {
        return work == old;
    }
    work.iter().all(|b| *b == 0)
}

// Old contents: bytes of all values.
pub fn fill_old(s: &mut [u8]) {
    let mut next: u8 = 1;
    for b in s.iter_mut() {
        *b = next;
        next = next.wrapping_add(91);
    }
}
