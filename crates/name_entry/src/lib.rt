// Entries: a pattern, what is written for it, and what may stand around it. One loop applies an entry of any kind, and an
// entry that matches nowhere costs a search and no copy.
//
// While blocks are held out of a text, it counts as longer than it is: `extra` is by how much.
#![tactic(auto)]

mod bounds;
mod presence;

ghost use Rattle.std.specs.Prelude.{◌≡◌, [], ◌∷◌, ◌≤◌, ◌<◌, length, get_or, drop};
ghost use Rattle.spec.specs.Result.{most_symbols};
ghost use Rattle.text_search.specs.Half.{half_work};
ghost use Rattle.spec.specs.Sweep.{sweep};
ghost use Rattle.spec.specs.Laws.Matches.{somewhere_from};
ghost use Rattle.text_symbols.specs.Parts.{part};
ghost use Rattle.text.specs.Writer.{most_written, Room, Appended, Regions};
ghost use Rattle.text.specs.Stage.{Ready};
ghost use Rattle.text.specs.Untouched.{Untouched};
ghost use Rattle.name_entry.specs.Bounded.{EntryTextsFit, stands as standing, spares, bounded, bounded_at, bounded_match};
ghost use Rattle.name_entry.specs.Sized.{sized, FitsWithBlocks, judged_within, StagedWithin};

pub use bounds::Bounds;
pub use presence::Pairs;
use text::{Due, Progress, Refusal, TextPlace, Writer};

// A pattern, what may stand around it, and what is written for it.
#[derive(Clone, Copy)]
pub struct Entry<'a> {
    pub bounds: Bounds,
    pub pattern: &'a [u8],
    pub fresh: &'a [u8],
}

impl Entry<'_> {
    // Whether the pattern stands at place i, and what is around it allows it to be taken.
    fn stands(&self, s: &[u8], i: usize) -> bool
        requires { (i ≤ length s.now) × (length s.now ≤ half_work) }
        ensures { result ≡ standing self.now.bounds self.now.pattern.now (get_or (0 ∷ s.now) i 0) (drop i s.now) }
    {
        if !text_search::starts_with(&s[i..], self.pattern) {
            return false;
        }
        let behind = text_search::symbol(s, i + self.pattern.len());
        self.bounds
            .is_allowed(text_search::symbol_before(s, i), behind)
    }

    // Whether a pattern that stands at place i is to be spared.
    fn is_spared(&self, s: &[u8], i: usize) -> bool
        requires { (i ≤ length s.now) × ((length s.now ≤ half_work) × (length self.now.pattern.now ≤ most_written)) }
        ensures { result ≡ spares self.now.bounds self.now.pattern.now (get_or (0 ∷ s.now) i 0) (drop i s.now) }
    {
        let behind = text_search::symbol(s, i + self.pattern.len());
        self.bounds
            .is_left(text_search::symbol_before(s, i), behind)
    }

    // Whether there is a match at place i: the pattern is taken, and not left as it is.
    fn is_match(&self, s: &[u8], i: usize) -> bool
        requires { (i ≤ length s.now) × ((length s.now ≤ half_work) × (length self.now.pattern.now ≤ most_written)) }
        ensures { result ≡ bounded_at self.now.bounds self.now.pattern.now (get_or (0 ∷ s.now) i 0) (drop i s.now) }
    {
        self.stands(s, i) & !self.is_spared(s, i)
    }

    // Whether there is a match from `start` on. Behind it, only where the pattern stands is more looked at.
    fn is_matched(&self, s: &[u8], start: usize) -> bool
        requires { (start < length s.now) × ((length s.now ≤ half_work) × (length self.now.pattern.now ≤ most_written)) }
        ensures { result ≡ somewhere_from (bounded_at self.now.bounds self.now.pattern.now) s.now start }
    {
        let mut i = start;
        // The step varies: the search goes on at the pattern's next occurrence.
        while !self.is_match(s, i) {
            let Some(at) = text_search::find_from(s, i + 1, self.pattern) else {
                return false;
            };
            i = at;
        }
        true
    }
}

// Writes the text at `source` by the entry: what stands before its pattern is copied at once.
fn rewrite(work: &mut [u8], source: TextPlace, out: Writer, entry: &Entry) -> Writer
    requires regions { Regions work.old source.at source.n out }
    requires entry_texts_fit { EntryTextsFit entry.now.pattern.now entry.now.fresh.now }
    ensures { Appended work.old work.new out result (sweep (bounded entry.now.bounds entry.now.pattern.now entry.now.fresh.now) 0 0 (part source.at source.n work.old)) }
{
    let TextPlace { at: from, n } = source;
    let end = from + n;
    let mut out = out;
    let mut i = 0;
    // The step varies: behind a symbol the gap before the next occurrence is copied too, and a pattern that stands is taken as a whole.
    while i < n {
        if !entry.stands(&work[from..end], i) {
            out = out.copy_one(work, from + i);
            i += 1;
            let next = from + i;
            let gap = text_search::gap(&work[next..end], entry.pattern);
            out = out.copy(work, next, gap);
            i += gap;
            continue;
        }
        let written = if entry.is_spared(&work[from..end], i) {
            entry.pattern
        } else {
            entry.fresh
        };
        out = out.put_all(work, written);
        i += entry.pattern.len();
    }
    out
}

// The finished text, or number 5. `Writer::finished` does not count the held blocks.
fn finished(out: Writer, extra: usize) -> Progress
    requires { extra ≤ most_symbols }
    ensures { result ≡ judged_within extra out }
{
    if text::CAP - extra < out.count {
        return Err(Refusal::Overgrown);
    }
    Ok(TextPlace {
        at: out.to,
        n: out.count,
    })
}

// The stage that applies an entry. Where it matches nowhere, every byte stays as it is.
pub fn apply(work: &mut [u8], text: Progress, extra: usize, entry: &Entry) -> Progress
    requires ready { Ready work.old text }
    requires fits_with_blocks { FitsWithBlocks extra text }
    requires entry_texts_fit { EntryTextsFit entry.now.pattern.now entry.now.fresh.now }
    ensures staged_within { StagedWithin work.old work.new text result extra (sized extra (sweep (bounded entry.now.bounds entry.now.pattern.now entry.now.fresh.now) 0 0)) }
    ensures untouched { Untouched work.old work.new text result (bounded_match entry.now.bounds entry.now.pattern.now ∷ []) }
{
    let Some(Due { source, out, first }) = text::due_for(work, text, entry.pattern) else {
        return text;
    };
    let TextPlace { at: from, n } = source;
    let end = from + n;
    if !entry.is_matched(&work[from..end], first) {
        return text;
    }
    finished(rewrite(work, source, out, entry), extra)
}
