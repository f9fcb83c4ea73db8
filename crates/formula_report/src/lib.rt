// The text of the answer of the program `formula`, at the start of a buffer.
#![tactic(auto)]

ghost use Rattle.std.specs.Prelude.{◌≡◌, ◌≤◌, ◌<◌, [], ◌∷◌, length};
ghost use Rattle.spec.specs.Symbols.{bytes};
ghost use Rattle.spec.specs.Result.{passed, refused};
ghost use Rattle.spec.specs.Program.{decimal, most_output, reported};
ghost use Rattle.text.specs.Writer.{Room, Appended};
ghost use Rattle.text.specs.Stage.{number};
ghost use Rattle.formula_report.specs.Decimal.{last_digit};
ghost use Rattle.formula_report.specs.Standing.{most_text, begun, Stands};

use text::{Refusal, Writer};

// `ok`, a space, the byte count, a newline, the LaTeX, a newline.
pub fn put_latex(text: &mut [u8], latex: &[u8]) -> usize
    requires most_text_in_bounds { most_text ≤ length text.old }
    requires latex_len_bound { length latex.now ≤ most_output }
    ensures { Stands (reported (passed latex.now)) text.old result text.new }
{
    let word = begin(text).put_all(text, b"ok ");
    let number = put_decimal(text, word, latex.len() as u64);
    let line = number.put_all(text, b"\n");
    let end = line.put_all(text, latex);
    end.put_all(text, b"\n").count
}

// `refused`, a space, the number, a newline.
pub fn put_refusal(text: &mut [u8], why: Refusal) -> usize
    requires { most_text ≤ length text.old }
    ensures { Stands (reported (refused (number why))) text.old result text.new }
{
    let word = begin(text).put_all(text, b"refused ");
    let number = put_decimal(text, word, u64::from(why));
    number.put_all(text, b"\n").count
}

// What is said of a first line that is neither.
pub fn put_neither(text: &mut [u8]) -> usize
    requires { most_text ≤ length text.old }
    ensures { Stands (bytes "first line: d or i\n") text.old result text.new }
{
    begin(text).put_all(text, b"first line: d or i\n").count
}

// The writer that has all of the text before it.
fn begin(text: &[u8]) -> Writer
    ensures { result ≡ begun text.now }
{
    Writer {
        to: 0,
        cap: text.len(),
        count: 0,
    }
}

// Appends a number of up to four digits. A `write!` would not do: by its contract it may fail, and there is nothing to say of a report that did.
fn put_decimal(text: &mut [u8], out: Writer, n: u64) -> Writer
    requires few { n < 10000 }
    requires room { Room text.old out 5 }
    ensures extended { Appended text.old text.new out result (decimal n) }
    ensures short { length (decimal n) ≤ 4 }
{
    if n < 10 {
        return put_digit(text, out, n);
    }
    let end = put_decimal(text, out, n / 10);
    put_digit(text, end, n)
}

// Appends the last digit of a number.
fn put_digit(text: &mut [u8], out: Writer, n: u64) -> Writer
    requires { Room text.old out 1 }
    ensures { Appended text.old text.new out result (last_digit n ∷ []) }
{
    out.put(text, (n % 10) as u8 + b'0')
}
