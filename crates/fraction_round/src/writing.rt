// Writing a fraction: its operands are copied from the text, without their parentheses.
ghost use Rattle.std.specs.Prelude.{◌+◌, ◌-◌, ◌≤◌};
ghost use Rattle.spec.specs.Result.{most_symbols};
ghost use Rattle.spec.specs.Fractions.{strip_outer_parens};
ghost use Rattle.text_symbols.specs.Parts.{part};
ghost use Rattle.text_symbols.specs.Trim.{spanned};
ghost use Rattle.text.specs.Writer.{Room, Appended, Regions, cut_by};
ghost use Rattle.fraction_round.specs.Slash.{Ordered, fraction};
ghost use Rattle.fraction_round.specs.Writing.{Source};

use super::Operands;
use text::{TextPlace, Writer};
use text_symbols::Span;

// Appends the operand that lies in the span.
fn put_operand(work: &mut [u8], span: Span, out: Writer) -> Writer
    requires room { Room work.old out (span.end - span.start) }
    requires source { Source work.old span out }
    ensures { Appended work.old work.new out result (strip_outer_parens (spanned span work.old)) }
{
    let Span { start: from, end } = span;
    let operand = fraction_operands::operand_span(&work[from..end]);
    out.copy(work, from + operand.start, operand.end - operand.start)
}

// Appends the fraction of two operands.
fn put_fraction(work: &mut [u8], f: Operands, out: Writer) -> Writer
    requires room { Room work.old out (6 + (f.num.end - f.num.start + (2 + (f.den.end - f.den.start + 1)))) }
    requires source { Source work.old f.num out }
    requires den_source { Source work.old f.den out }
    ensures { Appended work.old work.new out result (fraction f work.old) }
{
    let opened = out.put_all(work, b"\\frac{");
    let above = put_operand(work, f.num, opened);
    let halved = above.put_all(work, b"}{");
    let below = put_operand(work, f.den, halved);
    below.put_all(work, b"}")
}

// Drops the numerator of the slash at `i` from the end of what was written, and appends the fraction. The operands are
// spans of the text at `source`.
pub fn put_converted(
    work: &mut [u8],
    source: TextPlace,
    out: Writer,
    i: usize,
    f: Operands,
) -> Writer
    requires regions { Regions work.old source.at source.n out }
    requires n_le_most_symbols { source.n ≤ most_symbols }
    requires ordered { Ordered source.n i f }
    ensures { Appended work.old work.new (cut_by (i - f.num.start) out) result (fraction f (part source.at source.n work.old)) }
{
    let from = source.at;
    let left = out.cut(i - f.num.start);
    let num = Span {
        start: from + f.num.start,
        end: from + f.num.end,
    };
    let den = Span {
        start: from + f.den.start,
        end: from + f.den.end,
    };
    put_fraction(work, Operands { num, den }, left)
}
