// Trimming: a span of a text without the symbols of a class at its start, at its end, or both.
ghost use Rattle.std.specs.Prelude.{◌-◌};
ghost use Rattle.spec.specs.Symbols.{drop_while, drop_while_end};
ghost use Rattle.text_symbols.specs.Runs.{member};
ghost use Rattle.text_symbols.specs.Trim.{spanned, Within, Narrowed};

use super::{Class, Span, run_end, run_start};

// The span without the symbols of the class at its start.
fn skip(s: &[u8], span: Span, class: Class) -> Span
    requires { Within s.now span }
    ensures { Narrowed s.now span result (drop_while (member class) (spanned span s.now)) }
{
    let start = span.start;
    let end = span.end;
    Span {
        start: start + run_end(&s[start..end], 0, class),
        end,
    }
}

// The span without the symbols of the class at its end. Where none is left, the contract leaves the place open.
pub fn skip_end(s: &[u8], span: Span, class: Class) -> Span
    requires { Within s.now span }
    ensures { Narrowed s.now span result (drop_while_end (member class) (spanned span s.now)) }
{
    let start = span.start;
    let end = span.end;
    Span {
        start,
        end: start + run_start(&s[start..end], end - start, class),
    }
}

// The span without the symbols of the class at its start and its end. Where none is left, the place is open here too.
pub fn trim(s: &[u8], span: Span, class: Class) -> Span
    requires { Within s.now span }
    ensures { Narrowed s.now span result (drop_while_end (member class) (drop_while (member class) (spanned span s.now))) }
{
    skip_end(s, skip(s, span, class), class)
}
