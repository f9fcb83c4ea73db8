// The stage `binom`: `binom(n, k)` becomes `\binom{n}{k}`. With no comma at its top level a call is copied as ordinary text.
#![tactic(auto)]

ghost use Rattle.std.specs.Prelude.{◌+◌, ◌-◌, ◌≤◌, ◌<◌, length};
ghost use Rattle.spec.specs.Result.{stage, most_symbols};
ghost use Rattle.spec.specs.Calls.{convert_binom};
ghost use Rattle.text_symbols.specs.Parts.{part};
ghost use Rattle.text.specs.Writer.{Room, Appended, Apart, Regions};
ghost use Rattle.text.specs.Stage.{Ready, Staged};
ghost use Rattle.text_symbols.specs.Trim.{Within, spanned};
ghost use Rattle.binom.specs.Binom.{latex_binom, parted};

use call_rewriting::{call_at, put_call};
use text::{Due, Progress, TextPlace, Writer};
use text_symbols::{Class, Span};

// What a binomial begins with.
const NAME: &[u8] = b"binom(";

// What stands inside a binomial: its length, and the place of the comma that parts it.
#[derive(Clone, Copy)]
pub struct Inside {
    pub k: usize,
    pub comma: usize,
}

// Appends `\binom{`, the first span, `}{`, the second one, and `}`.
fn put_binom(work: &mut [u8], out: Writer, first: Span, second: Span) -> Writer
    requires room { Room work.old out (first.end - first.start + (second.end - second.start) + 64) }
    requires first_within { Within work.old first }
    requires second_within { Within work.old second }
    requires apart { Apart first.start (first.end - first.start) out × Apart second.start (second.end - second.start) out }
    ensures { Appended work.old work.new out result (latex_binom (spanned first work.old) (spanned second work.old)) }
{
    let above = put_call(
        work,
        out,
        b"\\binom{",
        first.start,
        first.end - first.start,
        b"}{",
    );
    let below = above.copy(work, second.start, second.end - second.start);
    below.put_all(work, b"}")
}

// Appends the binomial of the symbols at `inside`: what stands before the comma and what stands behind it, both trimmed.
fn put_parted(work: &mut [u8], out: Writer, inside: usize, parts: Inside) -> Writer
    requires room { Room work.old out (parts.k + 64) }
    requires k_in_bounds { (inside + parts.k ≤ length work.old) × (parts.comma < parts.k) }
    requires apart { Apart inside parts.k out }
    ensures { Appended work.old work.new out result (parted (part inside parts.k work.old) parts.comma) × (result.count ≤ out.count + (parts.k + 64)) }
{
    let comma = inside + parts.comma;
    let before = Span {
        start: inside,
        end: comma,
    };
    let behind = Span {
        start: comma + 1,
        end: inside + parts.k,
    };
    let first = text_symbols::trim(work, before, Class::Blank);
    let second = text_symbols::trim(work, behind, Class::Blank);
    put_binom(work, out, first, second)
}

// Writes the text at `source`, each binomial rewritten.
fn rewrite_binoms(work: &mut [u8], source: TextPlace, out: Writer) -> Writer
    requires { Regions work.old source.at source.n out × (source.n ≤ most_symbols) }
    ensures { Appended work.old work.new out result (convert_binom (part source.at source.n work.old)) }
{
    let TextPlace { at: from, n } = source;
    let end = from + n;
    let mut out = out;
    let mut i = 0;
    // The step varies: behind a binomial the loop goes on. A loop of its own: a turn as a closure over the buffer would be no plainer.
    while i < n {
        let at = from + i;
        let Some(k) = call_at(&work[at..end], NAME) else {
            out = out.copy_one(work, at);
            i += 1;
            continue;
        };
        let inside = at + NAME.len();
        let close = inside + k;
        let Some(comma) = call_commas::find_comma_in_args(&work[inside..close]) else {
            out = out.copy_one(work, at);
            i += 1;
            continue;
        };
        out = put_parted(work, out, inside, Inside { k, comma });
        i += NAME.len() + k + 1;
    }
    out
}

// `binom(n, k)` becomes `\binom{n}{k}`, wherever its parenthesis is closed and a comma parts it.
pub fn convert_binom(work: &mut [u8], text: Progress) -> Progress
    requires { Ready work.old text }
    ensures { Staged work.old work.new text result (stage convert_binom) }
{
    let Some(Due { source, out, .. }) = text::due_for(work, text, NAME) else {
        return text;
    };
    rewrite_binoms(work, source, out).finished()
}
