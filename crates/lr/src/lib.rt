// The stage `lr`. Of `lr(`..`)` the first symbol inside says which delimiters are written, and the last is dropped unread. A delimiter
// that stands alone inside is number 8.
#![tactic(auto)]

ghost use Rattle.std.specs.Prelude.{◌+◌, ◌≤◌, ◌<◌, ◌≡◌, length, MatchOption};
ghost use Rattle.std.proofs.Math.Option.{none, some};
ghost use Rattle.spec.specs.Result.{most_symbols};
ghost use Rattle.text_search.specs.Half.{half_work};
ghost use Rattle.spec.specs.Finish.{delimiters, convert_lr};
ghost use Rattle.text_symbols.specs.Parts.{part};
ghost use Rattle.text.specs.Writer.{Room, Appended, Apart, Regions};
ghost use Rattle.text.specs.Stage.{Ready, Staged};
ghost use Rattle.call_rewriting.specs.Delimiters.{Called};
ghost use Rattle.lr.specs.Lr.{lr_name, sized_by, EndedBy};

use text::{Due, Progress, Refusal, TextPlace, Writer};

// What a call begins with.
const NAME: &[u8] = b"lr(";

// What is written before and behind the symbols inside, in place of the delimiters there.
#[derive(Clone, Copy)]
struct Pair {
    left: &'static [u8],
    right: &'static [u8],
}

// The length of what stands inside the `lr(` that the text begins with. Unlike a call's search this one counts quoted parentheses.
fn lr_at(s: &[u8]) -> Option<usize>
    requires { length s.now ≤ half_work }
    ensures { Called (λ s. s) lr_name s.entry.now result }
{
    // No `strip_prefix`, as in `call_rewriting::call_at`.
    if !text_search::starts_with(s, NAME) {
        return None;
    }
    text_closing::find_matching_paren(&s[NAME.len()..])
}

// The delimiters of a first symbol, if it is one.
fn delimiters(first: u8) -> Option<Pair>
    ensures { MatchOption result (delimiters first ≡ none) (λ pair. delimiters first ≡ some (record { left = pair.left.now; right = pair.right.now })) }
{
    let (left, right): (&[u8], &[u8]) = match first {
        b'(' => (b"\\left(", b"\\right)"),
        b'|' => (b"\\left\\lvert ", b" \\right\\rvert"),
        b'[' => (b"\\left[", b"\\right]"),
        b'{' => (b"\\left\\{", b"\\right\\}"),
        _ => return None,
    };
    Some(Pair { left, right })
}

// Appends what is written for the `k` symbols at `inside`, by their first. They lie before a closing parenthesis.
fn put_sized(work: &mut [u8], out: Writer, first: u8, inside: usize, k: usize) -> Writer
    requires room { Room work.old out (k + 64) }
    requires k_in_bounds { inside + k < length work.old }
    requires apart { Apart inside (k + 1) out }
    ensures { Appended work.old work.new out result (sized_by (part inside k work.old) (delimiters first)) }
{
    let Some(Pair { left, right }) = delimiters(first) else {
        return out.copy(work, inside, k);
    };
    call_rewriting::put_call(work, out, left, inside + 1, k.saturating_sub(2), right)
}

// Writes the text at `source`, each `lr(` rewritten.
fn rewrite_lr(work: &mut [u8], source: TextPlace, out: Writer) -> Result<Writer, Refusal>
    requires { Regions work.old source.at source.n out }
    ensures { EndedBy work.old work.new source.at source.n out result }
{
    let TextPlace { at: from, n } = source;
    let end = from + n;
    let mut out = out;
    let mut i = 0;
    // The step varies: behind a call the loop goes on. A loop of its own: a turn as a closure over the buffer would be no plainer.
    while i < n {
        let at = from + i;
        let Some(k) = lr_at(&work[at..end]) else {
            out = out.copy_one(work, at);
            i += 1;
            continue;
        };
        let open = i + NAME.len();
        let inside = from + open;
        let close = inside + k;
        let first = text_search::symbol(&work[inside..close], 0);
        if (k == 1) & delimiters(first).is_some() {
            return Err(Refusal::BareDelimiter);
        }
        out = put_sized(work, out, first, inside, k);
        i = open + k + 1;
    }
    Ok(out)
}

// `lr([a])` becomes `\left[a\right]`. The last symbol is dropped unread, and a delimiter alone is number 8.
pub fn convert_lr(work: &mut [u8], text: Progress) -> Progress
    requires { Ready work.old text }
    ensures { Staged work.old work.new text result convert_lr }
{
    let Some(Due { source, out, .. }) = text::due_for(work, text, NAME) else {
        return text;
    };
    rewrite_lr(work, source, out)?.finished()
}
