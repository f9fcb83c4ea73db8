// `cases(..)` becomes LaTeX's environment of that name: its first occurrence only, and only if that one is closed. Its branches are
// parted by commas at the top level; blank ones are dropped.
#![tactic(auto)]

ghost use Rattle.std.specs.Prelude.{◌+◌, ◌-◌, ◌*◌, ◌≤◌, ◌++◌, length};
ghost use Rattle.spec.specs.Result.{stage, most_symbols};
ghost use Rattle.spec.specs.Closing.{over_quotes};
ghost use Rattle.spec.specs.Calls.{latex_cases, convert_cases};
ghost use Rattle.text_symbols.specs.Parts.{part};
ghost use Rattle.text.specs.Writer.{Room, Appended, Apart, Regions, grown_by};
ghost use Rattle.text.specs.Stage.{Ready, Staged};
ghost use Rattle.call_quotes.specs.Quotes.{Sees};
ghost use Rattle.cases.specs.Cases.{Branched, separator, branches};

use call_quotes::Quotes;
use text::{Due, Progress, TextPlace, Writer};
use text_symbols::{Class, Span};

// What the call begins with.
const NAME: &[u8] = b"cases(";

// A branch, trimmed; the place where the next one begins, and whether it begins between quotes.
#[derive(Clone, Copy)]
pub struct Branch {
    pub span: Span,
    pub next: usize,
    pub quotes: Quotes,
}

// The branch of `s` that begins at `start`.
fn branch_at(s: &[u8], start: usize, quotes: Quotes) -> Branch
    requires start_in_bounds { (start ≤ length s.now) × (length s.now ≤ most_symbols) }
    requires sees { Sees (over_quotes s.now) s.now start quotes.quoted }
    ensures { Branched s.now start result }
{
    let part = call_commas::split_top_level_commas(s, start, quotes);
    let end = part.end;
    Branch {
        span: text_symbols::trim(s, Span { start, end }, Class::Blank),
        next: end + 1,
        quotes: part.quotes,
    }
}

// Appends the `k` symbols at `from`, behind a separator if they are not the first. A flag is plainer here than a
// separator passed in, which would be empty for the first branch.
fn put_branch(work: &mut [u8], out: Writer, later: bool, from: usize, k: usize) -> Writer
    requires room { Room work.old out (k + 4) }
    requires k_in_bounds { from + k ≤ length work.old }
    requires apart { Apart from k out }
    ensures { Appended work.old work.new out result (separator later ++ part from k work.old) }
{
    if later {
        let parted = out.put_all(work, b" \\\\ ");
        return parted.copy(work, from, k);
    }
    out.copy(work, from, k)
}

// Appends the branches of the text at `source`.
fn put_branches(work: &mut [u8], out: Writer, source: TextPlace) -> Writer
    requires { Regions work.old source.at source.n out × (source.n ≤ most_symbols) }
    ensures { Appended work.old work.new out result (branches (part source.at source.n work.old)) × (result.count ≤ out.count + 8 * (source.n + 1)) }
{
    let TextPlace { at: from, n } = source;
    let end = from + n;
    let mut written = out;
    let mut later = false;
    let mut quotes = Quotes::new();
    let mut start = 0;
    // The step varies: the loop goes on behind the branch.
    while start <= n {
        let branch = branch_at(&work[from..end], start, quotes);
        let k = branch.span.end - branch.span.start;
        start = branch.next;
        quotes = branch.quotes;
        if k == 0 {
            continue;
        }
        written = put_branch(work, written, later, from + branch.span.start, k);
        later = true;
    }
    written
}

// Appends the environment for the text at `source`.
fn put_cases(work: &mut [u8], out: Writer, source: TextPlace) -> Writer
    requires { Regions work.old source.at source.n (grown_by 32 out) × (source.n ≤ most_symbols) }
    ensures { Appended work.old work.new out result (latex_cases (part source.at source.n work.old)) × (result.count ≤ out.count + 8 * (source.n + 1) + 32) }
{
    let opened = out.put_all(work, b"\\begin{cases} ");
    let filled = put_branches(work, opened, source);
    filled.put_all(work, b" \\end{cases}")
}

// Writes the text at `source`, the call at `i`, which holds `k` symbols, rewritten.
fn rewrite_cases(work: &mut [u8], source: TextPlace, out: Writer, i: usize, k: usize) -> Writer
    requires regions { Regions work.old source.at source.n out × (source.n ≤ most_symbols) }
    requires small { out.count ≤ most_symbols }
    requires k_bound { i + 6 + k + 1 ≤ source.n }
    ensures { Appended work.old work.new out result (part source.at i work.old ++ latex_cases (part (source.at + i + 6) k work.old) ++ part (source.at + i + 6 + k + 1) (source.at + source.n - (source.at + i + 6 + k + 1)) work.old) }
{
    let TextPlace { at: from, n } = source;
    let inside = from + i + NAME.len();
    let behind = inside + k + 1;
    let before = out.copy(work, from, i);
    let written = put_cases(work, before, TextPlace { at: inside, n: k });
    written.copy(work, behind, from + n - behind)
}

// `cases(a, b)` becomes the environment: the first call only, as the Rust has no loop here.
pub fn convert_cases(work: &mut [u8], text: Progress) -> Progress
    requires { Ready work.old text }
    ensures { Staged work.old work.new text result (stage convert_cases) }
{
    let Some(Due { source, out, first }) = text::due_for(work, text, NAME) else {
        return text;
    };
    let at = source.at + first;
    let end = source.at + source.n;
    let Some(k) = call_rewriting::call_at(&work[at..end], NAME) else {
        return text;
    };
    rewrite_cases(work, source, out, first, k).finished()
}
