// strip_outer_parens: an operand without the blanks around it and without its outer parentheses.
ghost use Rattle.std.specs.Prelude.{◌≡◌, ◌≤◌, length};
ghost use Rattle.spec.specs.Result.{most_symbols};
ghost use Rattle.spec.specs.Symbols.{trim};
ghost use Rattle.spec.specs.Fractions.{strip_trimmed, strip_outer_parens};
ghost use Rattle.text_symbols.specs.Trim.{Narrowed};
ghost use Rattle.fraction_operands.specs.Strip.{whole_span};

use text_symbols::{Class, Span};

// A text that begins and ends with no blank, without its outer parentheses.
fn strip_trimmed(s: &[u8]) -> &[u8]
    requires { length s.now ≤ most_symbols }
    ensures { result.now ≡ strip_trimmed s.now }
{
    let [b'(', inner @ .., b')'] = s else {
        return s;
    };
    if text_closing::is_level(inner, b'(', b')') {
        return inner;
    }
    s
}

// The text without the blanks around it.
fn trimmed(s: &[u8]) -> Span
    ensures { Narrowed s.now (whole_span s.now) result (trim s.now) }
{
    let whole = Span {
        start: 0,
        end: s.len(),
    };
    text_symbols::trim(s, whole, Class::Blank)
}

// The operand: a part of the text that it was given.
pub fn strip_outer_parens(s: &[u8]) -> &[u8]
    requires { length s.now ≤ most_symbols }
    ensures { result.now ≡ strip_outer_parens s.now }
{
    let Span { start, end } = trimmed(s);
    strip_trimmed(&s[start..end])
}

// Where the operand stands in the text. Its length says so: of the trimmed text it lacks one symbol at each end, or none.
pub fn operand_span(s: &[u8]) -> Span
    requires { length s.now ≤ most_symbols }
    ensures { Narrowed s.now (whole_span s.now) result (strip_outer_parens s.now) }
{
    let n = strip_outer_parens(s).len();
    let span = trimmed(s);
    if n < span.end - span.start {
        return Span {
            start: span.start + 1,
            end: span.end - 1,
        };
    }
    span
}
