// What the call rewritings share: a call `name(..)` becomes `left..right`, wherever its parenthesis is closed. The name holds its
// own parenthesis, as `bb(`.
#![tactic(auto)]

ghost use Rattle.std.specs.Prelude.{◌+◌, ◌-◌, ◌≤◌, ◌++◌, length};
ghost use Rattle.text_search.specs.Half.{half_work};
ghost use Rattle.spec.specs.Result.{stage, most_symbols};
ghost use Rattle.spec.specs.Closing.{over_quotes};
ghost use Rattle.spec.specs.Calls.{convert_calls};
ghost use Rattle.text_symbols.specs.Parts.{part};
ghost use Rattle.text_symbols.specs.Trim.{Within, Narrowed, spanned};
ghost use Rattle.text.specs.Writer.{Room, Appended, Apart, Regions};
ghost use Rattle.text.specs.Stage.{Ready, Staged};
ghost use Rattle.call_rewriting.specs.Delimiters.{Called, CallTextsFit, argument, delimited};

use text::{Due, Progress, TextPlace, Writer};
use text_symbols::{Class, Span};

// A call that is rewritten: its name, what is written before and behind the symbols inside, and whether blanks and then quotes are
// dropped from them.
#[derive(Clone, Copy)]
pub struct Delimiters<'a> {
    pub name: &'a [u8],
    pub left: &'a [u8],
    pub right: &'a [u8],
    pub trims: bool,
}

// The length of what stands inside the call that the text begins with.
pub fn call_at(s: &[u8], name: &[u8]) -> Option<usize>
    requires { length s.now ≤ half_work }
    ensures { Called over_quotes name.now s.now result }
{
    // No `strip_prefix`, which compares the whole name at every symbol.
    if !text_search::starts_with(s, name) {
        return None;
    }
    call_quotes::find_call_end(&s[name.len()..])
}

// What is written of the span inside a call: all of it, or what is left when blanks and then quotes have been trimmed away. A flag is
// plainer here than a step passed in: all calls that trim do so alike.
fn argument_of(s: &[u8], span: Span, trims: bool) -> Span
    requires { Within s.now span }
    ensures { Narrowed s.now span result (argument trims (spanned span s.now)) }
{
    if !trims {
        return span;
    }
    let inner = text_symbols::trim(s, span, Class::Blank);
    text_symbols::trim(s, inner, Class::Only(b'"'))
}

// Appends `left`, the `k` symbols at `inside`, and `right`.
pub fn put_call(
    work: &mut [u8],
    out: Writer,
    left: &[u8],
    inside: usize,
    k: usize,
    right: &[u8],
) -> Writer
    requires room { Room work.old out (length left.now + (k + length right.now)) }
    requires k_in_bounds { inside + k ≤ length work.old }
    requires apart { Apart inside k out }
    ensures { Appended work.old work.new out result (left.now ++ part inside k work.old ++ right.now) }
{
    let opened = out.put_all(work, left);
    let filled = opened.copy(work, inside, k);
    filled.put_all(work, right)
}

// Writes the text at `source`, each call of the name rewritten.
fn rewrite_calls(work: &mut [u8], source: TextPlace, out: Writer, call: &Delimiters<'_>) -> Writer
    requires regions { Regions work.old source.at source.n out }
    requires call_texts_fit { CallTextsFit call.now.name.now call.now.left.now call.now.right.now }
    ensures { Appended work.old work.new out result (convert_calls call.now.name.now (delimited call.now.trims call.now.left.now call.now.right.now) (part source.at source.n work.old)) }
{
    let TextPlace { at: from, n } = source;
    let end = from + n;
    let mut out = out;
    let mut i = 0;
    // The step varies: behind a call the loop goes on. A loop of its own: a turn as a closure over the buffer would be no plainer.
    while i < n {
        let at = from + i;
        let Some(k) = call_at(&work[at..end], call.name) else {
            out = out.copy_one(work, at);
            i += 1;
            continue;
        };
        let start = i + call.name.len();
        let close = start + k;
        let inner = argument_of(&work[from..end], Span { start, end: close }, call.trims);
        out = put_call(
            work,
            out,
            call.left,
            from + inner.start,
            inner.end - inner.start,
            call.right,
        );
        i = close + 1;
    }
    out
}

// The stage that rewrites every call of the name. Where there is none, the text stays where it is.
pub fn convert_delimiter_func(work: &mut [u8], text: Progress, call: &Delimiters<'_>) -> Progress
    requires ready { Ready work.old text }
    requires call_texts_fit { CallTextsFit call.now.name.now call.now.left.now call.now.right.now }
    ensures { Staged work.old work.new text result (stage (convert_calls call.now.name.now (delimited call.now.trims call.now.left.now call.now.right.now))) }
{
    let Some(Due { source, out, .. }) = text::due_for(work, text, call.name) else {
        return text;
    };
    rewrite_calls(work, source, out, call).finished()
}
