// `attach(base, b: bottom)` becomes `\underset{bottom}{base}`: the first call, again and again, until it can't be rewritten. The text
// goes to and fro between the halves of the work buffer.
#![tactic(auto)]

ghost use Rattle.std.specs.Prelude.{◌≡◌, ◌++◌, ◌+◌, ◌-◌, ◌*◌, ◌≤◌, length};
ghost use Rattle.text_search.specs.Half.{half_work};
ghost use Rattle.spec.specs.Result.{stage};
ghost use Rattle.spec.specs.Symbols.{bytes};
ghost use Rattle.spec.specs.Calls.{bottom, latex_underset, convert_attach};
ghost use Rattle.spec.specs.Sweep.{replace};
ghost use Rattle.text_symbols.specs.Parts.{part};
ghost use Rattle.text.specs.Writer.{Appended, Regions, grown_by};
ghost use Rattle.text.specs.Stage.{Ready, Answered};
ghost use Rattle.text_symbols.specs.Trim.{Within, Narrowed, spanned};
ghost use Rattle.attach.specs.Attach.{SubscriptFound};
ghost use Rattle.attach.specs.Once.{Attached, ArgumentsWithin};
ghost use Rattle.attach.specs.Turns.{Halved, Beyond, other_half, span_at, SpanRegions, underset_at, Turned, Rewritten};
ghost use Rattle.attach.specs.Settled.{Settled};

use text::{Progress, TextPlace, Writer};
use text_symbols::{Class, Span};

// What a call begins with.
const NAME: &[u8] = b"attach(";

// Half of the work buffer: a text on the way is that long at the most.
const HALF: usize = 16_384;

// What stands in a span that begins behind `b:`, up to the next comma that is not escaped. With no comma, closing parentheses at
// its end are cut.
fn bottom_of(s: &[u8], span: Span) -> Span
    requires { Within s.now span }
    ensures { Narrowed s.now span result (bottom (spanned span s.now)) }
{
    let Span { start, end } = span;
    let Some(j) = call_commas::find_unescaped_comma(&s[start..end]) else {
        return text_symbols::skip_end(s, span, Class::Only(b')'));
    };
    let end = start + j;
    text_symbols::trim(s, Span { start, end }, Class::Blank)
}

// The subscript among the arguments behind the first comma. An empty one is none.
fn subscript_of(s: &[u8], span: Span) -> Option<Span>
    requires { Within s.now span }
    ensures { SubscriptFound s.now span result }
{
    let Span { start, end } = span;
    let i = text_search::find(&s[start..end], b"b:")?;
    let start = start + i + 2;
    let after = text_symbols::trim(s, Span { start, end }, Class::Blank);
    let below = bottom_of(s, after);
    if below.start == below.end {
        return None;
    }
    Some(below)
}

// The arguments of a call that can be rewritten: its base and its subscript.
#[derive(Clone, Copy)]
pub struct Attachment {
    pub base: Span,
    pub below: Span,
}

// The arguments of the call that holds the `k` symbols at `start`.
fn attachment_of(s: &[u8], start: usize, k: usize) -> Option<Attachment>
    requires { start + k ≤ length s.now }
    ensures { Attached s.now start k result }
{
    let end = start + k;
    let j = call_commas::find_unescaped_comma(&s[start..end])?;
    let comma = start + j;
    let behind = Span {
        start: comma + 1,
        end,
    };
    let below = subscript_of(s, behind)?;
    let base = text_symbols::trim(s, Span { start, end: comma }, Class::Blank);
    Some(Attachment { base, below })
}

// Appends the text at `source`, with `\;` for each `\,`. A sweep of its own: that of `pattern_rewriting` begins with a text that has been found to hold its
// pattern, and answers a whole stage.
fn put_subscript(work: &mut [u8], out: Writer, source: TextPlace) -> Writer
    requires { Regions work.old source.at source.n out }
    ensures { Appended work.old work.new out result (replace (bytes "\\,") (bytes "\\;") (part source.at source.n work.old)) }
{
    let TextPlace { at: from, n } = source;
    let end = from + n;
    let mut written = out;
    let mut i = 0;
    // The step varies: a comma takes two symbols.
    while i < n {
        let at = from + i;
        if text_search::starts_with(&work[at..end], b"\\,") {
            written = written.put_all(work, b"\\;");
            i += 2;
            continue;
        }
        written = written.copy_one(work, at);
        i += 1;
    }
    written
}

// Appends `\underset{`, the subscript at `source`, and `}{`.
fn put_below(work: &mut [u8], out: Writer, source: TextPlace) -> Writer
    requires { Regions work.old source.at source.n (grown_by 16 out) }
    ensures { Appended work.old work.new out result (bytes "\\underset{" ++ replace (bytes "\\,") (bytes "\\;") (part source.at source.n work.old) ++ bytes "}{") × (result.count ≤ out.count + 2 * source.n + 16) }
{
    let opened = out.put_all(work, b"\\underset{");
    let filled = put_subscript(work, opened, source);
    filled.put_all(work, b"}{")
}

// Appends LaTeX's command for the arguments of a call in the text at `from`.
fn put_underset(work: &mut [u8], out: Writer, from: usize, arguments: Attachment) -> Writer
    requires below_regions { SpanRegions work.old from arguments.below (grown_by 16 out) }
    requires base_regions { SpanRegions work.old from arguments.base (grown_by 16 out) }
    ensures { Appended work.old work.new out result (latex_underset (span_at from arguments.below work.old) (span_at from arguments.base work.old)) × (result.count ≤ out.count + 2 * (arguments.below.end - arguments.below.start) + (arguments.base.end - arguments.base.start) + 17) }
{
    let Attachment { base, below } = arguments;
    let subscript = TextPlace {
        at: from + below.start,
        n: below.end - below.start,
    };
    let opened = put_below(work, out, subscript);
    let filled = opened.copy(work, from + base.start, base.end - base.start);
    filled.put_all(work, b"}")
}

// Writes the text at `source`, the call at `i`, which holds `k` symbols, rewritten. `cases` has the like of it: one function for both would
// take the middle as a closure over the buffer, and be no plainer.
fn rewrite_attach(
    work: &mut [u8],
    source: TextPlace,
    out: Writer,
    i: usize,
    k: usize,
    arguments: Attachment,
) -> Writer
    requires regions { Regions work.old source.at source.n out }
    requires fresh { out.count ≡ 0 }
    requires arguments_within { ArgumentsWithin (i + 7) k arguments.base arguments.below × (i + 7 + k + 1 ≤ source.n) }
    ensures { Appended work.old work.new out result (underset_at work.old source.at source.n i k arguments.base arguments.below) }
{
    let TextPlace { at: from, n } = source;
    let behind = from + (i + NAME.len() + k + 1);
    let before = out.copy(work, from, i);
    let written = put_underset(work, before, from, arguments);
    written.copy(work, behind, from + n - behind)
}

// The half of the buffer that a text at this place does not lie in.
fn other_half(at: usize) -> usize
    ensures { result ≡ other_half at }
{
    if at < HALF { HALF } else { 0 }
}

// A turn: rewrites the first call in the text to the other half, or there is nothing to rewrite.
fn attach_once(work: &mut [u8], text: TextPlace) -> Option<TextPlace>
    requires { Halved work.old text.at text.n }
    ensures { Turned work.old work.new text.at text.n result }
{
    let TextPlace { at, n } = text;
    let end = at + n;
    let i = text_search::find(&work[at..end], NAME)?;
    let open = at + i;
    let Some(k) = call_rewriting::call_at(&work[open..end], NAME) else {
        return None;
    };
    let arguments = attachment_of(&work[at..end], i + NAME.len(), k)?;
    let to = other_half(at);
    let out = Writer {
        to,
        cap: HALF,
        count: 0,
    };
    let written = rewrite_attach(work, text, out, i, k, arguments);
    Some(TextPlace {
        at: to,
        n: written.count,
    })
}

// Rewrites a text of `n` symbols in at most `n` turns.
fn attach_all(work: &mut [u8], text: TextPlace) -> TextPlace
    requires { Halved work.old text.at text.n }
    ensures { Rewritten work.old work.new text.at text.n result }
{
    let mut last = text;
    for _turn in 0..text.n {
        let Some(next) = attach_once(work, last) else {
            return last;
        };
        last = next;
    }
    last
}

// Judges the finished text. From the upper half it is brought to the first region.
fn settle(work: &mut [u8], place: TextPlace) -> Progress
    requires { Halved work.old place.at place.n }
    ensures { Settled work.old work.new place result }
{
    let TextPlace { at, n } = place;
    if at < HALF {
        let lower = Writer {
            count: n,
            ..Writer::new(at)
        };
        return lower.finished();
    }
    Writer::new(0).copy(work, at, n).finished()
}

// `attach(x, b: y)` becomes `\underset{y}{x}`, again and again from the first call on, until that one can't be rewritten. Judged by
// the finished text, however long it was between two rewritings.
pub fn convert_attach(work: &mut [u8], text: Progress) -> Progress
    requires { Ready work.old text }
    ensures answered { Answered work.old work.new text result (stage convert_attach) }
    ensures beyond { Beyond work.old work.new }
{
    let place = attach_all(work, text?);
    settle(work, place)
}
