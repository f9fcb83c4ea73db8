// The entry: a formula and a definition table in, LaTeX out, over lent buffers.
#![tactic(auto)]

ghost use Rattle.spec.specs.Pipeline.{Call};
ghost use Rattle.entry_ends.specs.Answer.{meaning};

pub use entry_ends::Answer;
use entry_ends::{admit, put_out};
use stages::convert;
use text::Refusal;

// Number 4: the least length of the work buffer.
pub const LEAST_WORK: usize = 32_768;

// The Rust's `typst_to_latex`, with the refusals of documents 01 and 02 around it. `field` says which commands count as tall, each by its bit:
// `\frac` 16, `\sqrt` 8, `\binom` 4, `\sum` 2 and `\int` 1, 31 for all. The LaTeX comes to stand at the start of `output`. All of `work` is zero
// afterwards, unless it is too narrow.
pub fn typst_to_latex(
    formula: &[u8],
    table: &[u8],
    display: bool,
    field: u32,
    work: &mut [u8],
    output: &mut [u8],
) -> Answer
    ensures { Call formula.now table.now display field work.old output.old (meaning result) work.new output.new }
{
    if work.len() < LEAST_WORK {
        return Err(Refusal::NarrowWork);
    }
    let admitted = admit(work, formula, table, field);
    let latex = convert(work, admitted, table, display, field);
    let answer = put_out(work, latex, output);
    text::clear(work);
    answer
}
