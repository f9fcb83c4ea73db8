// Rewritings that wait for a pattern: where it stands, a text is written, then a part of what stands there, then perhaps a closing brace.
// A rule looks at the text and says what is to be written; it writes nothing. One loop carries out what any of them says.
#![tactic(auto)]

mod rules;

ghost use Rattle.std.specs.Prelude.{◌≡◌, ◌+◌, ◌-◌, ◌≤◌, ◌<◌, [], ◌∷◌, ◌++◌, length};
ghost use Rattle.spec.specs.Symbols.{bytes, contains};
ghost use Rattle.spec.specs.Result.{stage, most_symbols};
ghost use Rattle.spec.specs.Sweep.{sweep, replace};
ghost use Rattle.spec.specs.Words.{convert_sqrt};
ghost use Rattle.spec.specs.Matches.{somewhere};
ghost use Rattle.spec.specs.Laws.Matches.{somewhere_from};
ghost use Rattle.text_search.specs.Half.{half_work};
ghost use Rattle.text_symbols.specs.Parts.{part};
ghost use Rattle.text.specs.Writer.{Room, Appended, Apart, Regions};
ghost use Rattle.text.specs.Stage.{Ready, Staged};
ghost use Rattle.text.specs.Untouched.{Untouched};
ghost use Rattle.pattern_rewriting.specs.Edits.{PatternTextsFit, ending, pattern_rule, pattern_at};

pub use rules::edit_at;
use text::{Due, Progress, TextPlace, Writer};
use text_symbols::Span;

// What is done where the pattern stands. The contracts name the rule of each kind, so the kinds are an enum: a closure would need a clause that
// says the same at every caller.
#[derive(Clone, Copy)]
pub enum PatternKind {
    // The pattern is taken as a whole.
    Literal,
    // The pattern ends with a parenthesis, which becomes a brace, and so does the one that closes it.
    ParenToBrace,
    // The pattern is a sign with `\text{` behind it: the block gets braces.
    WrapText,
    // The pattern is a sign: two or more letters or digits behind it get braces.
    WrapMultichar,
}

// A rewriting: the pattern that it waits for, what is done where that stands, and the text that is written there first.
#[derive(Clone, Copy)]
pub struct Rewriting<'a> {
    pub kind: PatternKind,
    pub pattern: &'a [u8],
    pub left: &'a [u8],
}

// What a rule says of a place where it matches: the symbols of the span are kept, so many are taken in all, and a brace closes them or not.
#[derive(Clone, Copy)]
pub struct Edit {
    pub kept: Span,
    pub taken: usize,
    pub closed: bool,
}

// Whether there is a match from `start` on. Behind it, only where the pattern stands is more looked at.
fn is_matched(s: &[u8], start: usize, rewriting: &Rewriting<'_>) -> bool
    requires { (start < length s.now) × ((length s.now ≤ half_work) × (0 < length rewriting.now.pattern.now)) }
    ensures { result ≡ somewhere_from (pattern_at rewriting.now.kind rewriting.now.pattern.now) s.now start }
{
    let mut i = start;
    // The step varies: behind a place without a match, the next place of the pattern.
    while edit_at(&s[i..], rewriting).is_none() {
        let Some(at) = text_search::find_from(s, i + 1, rewriting.pattern) else {
            return false;
        };
        i = at;
    }
    true
}

// Appends `left`, the symbols that the edit of the text at `at` keeps, and a closing brace or nothing.
fn put_edit(work: &mut [u8], out: Writer, left: &[u8], at: usize, edit: Edit) -> Writer
    requires room { Room work.old out (length left.now + (edit.kept.end - edit.kept.start + 1)) }
    requires kept_in_bounds { (edit.kept.start ≤ edit.kept.end) × (at + edit.kept.end ≤ length work.old) }
    requires apart { Apart (at + edit.kept.start) (edit.kept.end - edit.kept.start) out }
    ensures { Appended work.old work.new out result (left.now ++ part (at + edit.kept.start) (edit.kept.end - edit.kept.start) work.old ++ ending edit.closed) }
{
    let opened = out.put_all(work, left);
    let kept = edit.kept;
    let filled = opened.copy(work, at + kept.start, kept.end - kept.start);
    let ending: &[u8] = if edit.closed { b"}" } else { b"" };
    filled.put_all(work, ending)
}

// Writes the text at `source`, rewritten: what stands before the pattern is copied at once.
pub fn rewrite(work: &mut [u8], source: TextPlace, out: Writer, rewriting: Rewriting) -> Writer
    requires regions { Regions work.old source.at source.n out }
    requires pattern_texts_fit { PatternTextsFit rewriting.pattern.now rewriting.left.now }
    ensures { Appended work.old work.new out result (sweep (pattern_rule rewriting.entry.kind rewriting.entry.pattern.now rewriting.entry.left.now) 0 0 (part source.at source.n work.old)) }
{
    let TextPlace { at: from, n } = source;
    let end = from + n;
    let mut out = out;
    let mut i = 0;
    // The step varies: all that is taken, or the symbols up to the next pattern.
    while i < n {
        let at = from + i;
        let Some(edit) = edit_at(&work[at..end], &rewriting) else {
            out = out.copy_one(work, at);
            i += 1;
            let next = from + i;
            let gap = text_search::gap(&work[next..end], rewriting.pattern);
            out = out.copy(work, next, gap);
            i += gap;
            continue;
        };
        out = put_edit(work, out, rewriting.left, at, edit);
        i += edit.taken;
    }
    out
}

// The stage that rewrites. Where there is no match, every byte stays as it is.
pub fn convert_pattern(work: &mut [u8], text: Progress, rewriting: Rewriting) -> Progress
    requires ready { Ready work.old text }
    requires pattern_texts_fit { PatternTextsFit rewriting.pattern.now rewriting.left.now }
    ensures staged { Staged work.old work.new text result (stage (sweep (pattern_rule rewriting.entry.kind rewriting.entry.pattern.now rewriting.entry.left.now) 0 0)) }
    ensures untouched { Untouched work.old work.new text result (somewhere (pattern_at rewriting.entry.kind rewriting.entry.pattern.now) 0 ∷ []) }
{
    let Some(Due { source, out, first }) = text::due_for(work, text, rewriting.pattern) else {
        return text;
    };
    let TextPlace { at: from, n } = source;
    let end = from + n;
    if !is_matched(&work[from..end], first, &rewriting) {
        return text;
    }
    rewrite(work, source, out, rewriting).finished()
}

// Every occurrence of the pattern is replaced.
pub fn replace(work: &mut [u8], text: Progress, pattern: &[u8], fresh: &[u8]) -> Progress
    requires ready { Ready work.old text }
    requires pattern_texts_fit { PatternTextsFit pattern.now fresh.now }
    ensures staged { Staged work.old work.new text result (stage (replace pattern.now fresh.now)) }
    ensures untouched { Untouched work.old work.new text result (contains pattern.now ∷ []) }
{
    let rewriting = Rewriting {
        kind: PatternKind::Literal,
        pattern,
        left: fresh,
    };
    convert_pattern(work, text, rewriting)
}

// `sqrt(`..`)` becomes `\sqrt{`..`}`.
pub fn convert_sqrt(work: &mut [u8], text: Progress) -> Progress
    requires { Ready work.old text }
    ensures staged { Staged work.old work.new text result (stage convert_sqrt) }
    ensures untouched { Untouched work.old work.new text result (contains (bytes "sqrt(") ∷ []) }
{
    let rewriting = Rewriting {
        kind: PatternKind::ParenToBrace,
        pattern: b"sqrt(",
        left: b"\\sqrt{",
    };
    convert_pattern(work, text, rewriting)
}
