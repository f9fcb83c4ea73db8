// Line breaks and alignment. A line break is a backslash behind a space, before a newline or at the very end: it is doubled. A text with
// `&` is trimmed and set in an environment. Since blanks are written as they are, trimming what is read trims what is written.
#![tactic(auto)]

ghost use Rattle.std.specs.Prelude.{◌≤◌, ◌<◌, ◌≡◌, [], ◌∷◌, length};
ghost use Rattle.spec.specs.Result.{stage, most_symbols};
ghost use Rattle.spec.specs.Finish.{has_alignment, has_line_breaks, convert_alignment};
ghost use Rattle.text.specs.Writer.{Regions};
ghost use Rattle.text.specs.Stage.{Ready, Staged};
ghost use Rattle.text.specs.Untouched.{Untouched};
ghost use Rattle.alignment.specs.Breaks.{break_at};
ghost use Rattle.alignment.specs.Lines.{Trimmed};
ghost use Rattle.alignment.specs.Aligned.{Lines, Aligned};

use text::{Progress, TextPlace, Writer};
use text_symbols::{Class, Span};

fn has_alignment(s: &[u8]) -> bool
    ensures { result ≡ has_alignment s.now }
{
    text_search::contains(s, b"&")
}

fn has_line_breaks(s: &[u8]) -> bool
    ensures { result ≡ has_line_breaks s.now }
{
    text_search::contains(s, b" \\\n") | s.ends_with(b" \\")
}

// Whether the symbol at a place is a line break.
fn is_break(s: &[u8], i: usize) -> bool
    requires { i < length s.now }
    ensures { result ≡ break_at s.now i }
{
    let next = i + 1;
    (s[i] == b'\\')
        & ((text_search::symbol_before(s, i) == b' ')
            & ((text_search::symbol(s, next) == b'\n') | (s.len() == next)))
}

// Appends the symbols of the span of the text at `source`, line breaks doubled.
fn put_lines(work: &mut [u8], source: TextPlace, out: Writer, lines: Span) -> Writer
    requires regions { Regions work.old source.at source.n out }
    requires lines_within { (lines.start ≤ lines.end) × (lines.end ≤ source.n) }
    ensures { Lines work.old work.new source.at source.n out result lines.start lines.end }
{
    let TextPlace { at: from, n } = source;
    let end = from + n;
    let mut total = out;
    for i in lines.start..lines.end {
        let b = work[from + i];
        if is_break(&work[from..end], i) {
            total = total.put(work, b);
        }
        total = total.put(work, b);
    }
    total
}

// The span without blanks at its ends. `text_symbols::trim` leaves open where an empty rest lies, and the contract here says where each end lies.
fn trimmed(s: &[u8]) -> Span
    ensures { Trimmed s.now result }
{
    let start = text_symbols::run_end(s, 0, Class::Blank);
    let end = start + text_symbols::run_start(&s[start..], s.len() - start, Class::Blank);
    Span { start, end }
}

// The text in the environment.
fn put_aligned(work: &mut [u8], source: TextPlace, out: Writer) -> Writer
    requires regions { Regions work.old source.at source.n out }
    requires small { out.count ≤ most_symbols }
    ensures { Aligned work.old work.new source.at source.n out result }
{
    let TextPlace { at: from, n } = source;
    let end = from + n;
    let span = trimmed(&work[from..end]);
    let opened = out.put_all(work, b"\\begin{aligned}\n");
    let filled = put_lines(work, source, opened, span);
    filled.put_all(work, b"\n\\end{aligned}")
}

// Rows with `&` come into an `aligned` environment; without `&` only their breaks are doubled. With neither, every byte stays as it is.
pub fn convert_alignment(work: &mut [u8], text: Progress) -> Progress
    requires { Ready work.old text }
    ensures staged { Staged work.old work.new text result (stage convert_alignment) }
    ensures untouched { Untouched work.old work.new text result (has_alignment ∷ (has_line_breaks ∷ [])) }
{
    let source = text?;
    let TextPlace { at: from, n } = source;
    let end = from + n;
    let out = Writer::new(text::CAP - from);
    if has_alignment(&work[from..end]) {
        return put_aligned(work, source, out).finished();
    }
    if has_line_breaks(&work[from..end]) {
        return put_lines(work, source, out, Span { start: 0, end: n }).finished();
    }
    text
}
