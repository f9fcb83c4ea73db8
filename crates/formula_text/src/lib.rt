// What the program `formula` prints, from what it has read.
#![tactic(auto)]

ghost use Rattle.std.specs.Prelude.{◌≡◌, List, ℕ, ◌≤◌, length, take};
ghost use Rattle.spec.specs.Pipeline.{least_work};
ghost use Rattle.spec.specs.Program.{first_line, most_output, Read, Prints};
ghost use Rattle.formula_input.specs.Input.{is_asked};
ghost use Rattle.formula_report.specs.Standing.{most_text};
ghost use Rattle.formula_text.specs.Runs.{Converts};

// One byte more than `d` or `i`, a newline and the longest formula.
pub const INPUT: usize = 4_099;

// One byte more than the longest table.
pub const TABLE: usize = 32_769;

// The longest text: `ok`, a space, four digits, a newline, 8,192 bytes of LaTeX, a newline.
pub const TEXT: usize = 8_201;

// The entry's buffers.
pub const WORK: usize = 32_768;

pub const OUTPUT: usize = 8_192;

// Puts the text to print at the start of `text`, and gives its length. Of the input `n` bytes have been read, of the table `m`: all that there
// are, or as many as fit. A table that is not wanted need not be read. `work` and `output` are lent to the entry.
pub fn answer(
    input: &[u8; INPUT],
    n: usize,
    table: &[u8; TABLE],
    m: usize,
    work: &mut [u8; WORK],
    output: &mut [u8; OUTPUT],
    text: &mut [u8; TEXT],
) -> usize
    ensures prints { Prints input.now n table.now m work.old output.old text.old result work.new output.new text.new }
    ensures upper_bound { result ≤ length text.new }
{
    let read = front(input, n);
    let Some(display) = formula_input::first_line(read) else {
        return formula_report::put_neither(text);
    };
    let formula = formula_input::formula(read);
    convert(formula, front(table, m), display, work, output, text)
}

// Whether the first line is `d` or `i`: only then the answer depends on the table.
pub fn wants_table(input: &[u8; INPUT], n: usize) -> bool
    ensures { (whole : List ℕ) → Read input.now n whole → result ≡ is_asked (first_line whole) }
{
    formula_input::first_line(front(input, n)).is_some()
}

// The first n bytes, or all if there are fewer.
fn front(s: &[u8], n: usize) -> &[u8]
    ensures { result.now ≡ take n s.now }
{
    &s[..n.min(s.len())]
}

// The text of the entry's answer.
fn convert(
    formula: &[u8],
    table: &[u8],
    display: bool,
    work: &mut [u8],
    output: &mut [u8],
    text: &mut [u8],
) -> usize
    requires work_len { length work.old ≡ least_work }
    requires output_len { length output.old ≡ most_output }
    requires most_text_in_bounds { most_text ≤ length text.old }
    ensures { Converts formula.now table.now display work.old output.old text.old result work.new output.new text.new }
{
    match math_conv::typst_to_latex(formula, table, display, text::ALL_TALL, work, output) {
        Ok(n) => formula_report::put_latex(text, &output[..n]),
        Err(why) => formula_report::put_refusal(text, why),
    }
}
