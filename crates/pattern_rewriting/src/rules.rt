// The rules: what is to be written where a pattern stands.
ghost use Rattle.std.specs.Prelude.{List, ℕ, ◌≤◌, ◌<◌, length};
ghost use Rattle.text_search.specs.Half.{half_work};
ghost use Rattle.pattern_rewriting.specs.declared.PatternKind.TheVariants.{Literal, ParenToBrace, WrapText, WrapMultichar};
ghost use Rattle.pattern_rewriting.specs.Edits.{Edited, PatternMet};

use super::{Edit, PatternKind, Rewriting};
use text_symbols::{Class, Span};

// The text begins with a pattern that ends with a parenthesis. With no closer, all of the text is taken.
fn paren_to_brace(s: &[u8], pattern: &[u8]) -> Edit
    requires { PatternMet pattern.now s.now }
    ensures { (left : List ℕ) → Edited ParenToBrace pattern.now left s.now (Some result) }
{
    let open = pattern.len();
    let Some(k) = text_closing::find_matching_paren(&s[open..]) else {
        return Edit {
            kept: Span {
                start: open,
                end: s.len(),
            },
            taken: s.len(),
            closed: false,
        };
    };
    let close = open + k;
    Edit {
        kept: Span {
            start: open,
            end: close,
        },
        taken: close + 1,
        closed: true,
    }
}

// The text begins with a pattern of a sign and `\text{`. With no closer, nothing is done.
fn wrap_text(s: &[u8], pattern: &[u8]) -> Option<Edit>
    requires { PatternMet pattern.now s.now }
    ensures { (left : List ℕ) → Edited WrapText pattern.now left s.now result }
{
    let open = pattern.len();
    let k = text_closing::find_matching_brace(&s[open..])?;
    let end = open + k + 1;
    Some(Edit {
        kept: Span { start: 1, end },
        taken: end,
        closed: true,
    })
}

// The text begins with a sign. Letters and digits behind it, two at the least, get braces.
fn wrap_multichar(s: &[u8], pattern: &[u8]) -> Option<Edit>
    requires { PatternMet pattern.now s.now }
    ensures { (left : List ℕ) → Edited WrapMultichar pattern.now left s.now result }
{
    let end = text_symbols::run_end(s, 1, Class::Alnum);
    if end <= 2 {
        return None;
    }
    Some(Edit {
        kept: Span { start: 1, end },
        taken: end,
        closed: true,
    })
}

// The text begins with the pattern, which is taken.
fn literal(s: &[u8], pattern: &[u8]) -> Edit
    requires { PatternMet pattern.now s.now }
    ensures { (left : List ℕ) → Edited Literal pattern.now left s.now (Some result) }
{
    Edit {
        kept: Span { start: 0, end: 0 },
        taken: pattern.len(),
        closed: false,
    }
}

// What is done with the text's first symbol, or with more of them. With no edit, the symbol is copied. The rewriting is lent: loops ask this
// for each place, and by value its texts would be copied each time.
pub fn edit_at(s: &[u8], rewriting: &Rewriting<'_>) -> Option<Edit>
    requires { (length s.now ≤ half_work) × (0 < length rewriting.now.pattern.now) }
    ensures { (left : List ℕ) → Edited rewriting.now.kind rewriting.now.pattern.now left s.now result }
{
    let pattern = rewriting.pattern;
    if !text_search::starts_with(s, pattern) {
        return None;
    }
    match rewriting.kind {
        PatternKind::Literal => Some(literal(s, pattern)),
        PatternKind::ParenToBrace => Some(paren_to_brace(s, pattern)),
        PatternKind::WrapText => wrap_text(s, pattern),
        PatternKind::WrapMultichar => wrap_multichar(s, pattern),
    }
}
