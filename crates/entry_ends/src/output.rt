// From the work buffer to the output: number 10.
ghost use Rattle.std.specs.Prelude.{◌≡◌, ◌++◌, ◌≤◌, length, drop};
ghost use Rattle.text.specs.Stage.{Ready};
ghost use Rattle.entry_ends.specs.Answer.{PutOut};

use super::Answer;
use text::{Progress, Refusal, TextPlace};

// Copies the source to the start of the target.
pub fn copy_over(target: &mut [u8], source: &[u8])
    requires { length source.now ≤ length target.old }
    ensures { target.new ≡ source.now ++ drop (length source.now) target.old }
{
    // No `copy_from_slice`: it calls `memmove`, and the static library is to call nothing but `memset`.
    for i in 0..source.len() {
        target[i] = source[i];
    }
}

// The finished text to the output, if it fits.
pub fn put_out(work: &[u8], finished: Progress, output: &mut [u8]) -> Answer
    requires { Ready work.now finished }
    ensures { PutOut work.now finished result output.old output.new }
{
    let TextPlace { at, n } = finished?;
    if output.len() < n {
        return Err(Refusal::ShortOutput);
    }
    let end = at + n;
    copy_over(output, &work[at..end]);
    Ok(n)
}
