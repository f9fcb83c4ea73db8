// Quoted text: `"..."` becomes `\text{...}`, with a thin space where a letter, digit, closing brace or another quote is its
// neighbour. Blanks before such a neighbour are dropped, also those written already: what has been written is never read back, its
// end is handed on by value.
#![tactic(auto)]

ghost use Rattle.std.specs.Prelude.{◌≡◌, ◌≤◌, ◌<◌, length};
ghost use Rattle.spec.specs.Result.{stage, most_symbols};
ghost use Rattle.spec.specs.Quotes.{convert_text_quotes};
ghost use Rattle.text_symbols.specs.Parts.{part};
ghost use Rattle.text.specs.Writer.{Room, Appended, Regions};
ghost use Rattle.text.specs.Written.{Written};
ghost use Rattle.text.specs.Stage.{Ready, Staged};
ghost use Rattle.quotes.specs.Quotes.{end_in, grown_by, gap_at, kept, opening_quote, ClosedAt};

use text::{Due, Progress, TextPlace, Writer};
use text_symbols::Class;

// The end of a text: its last symbol that is not blank, and the number of blanks behind it.
#[derive(Clone, Copy)]
pub struct TextEnd {
    pub last: Option<u8>,
    pub blanks: usize,
}

impl TextEnd {
    // The end of a text whose last symbol is not blank.
    pub fn new(last: u8) -> TextEnd
        ensures { result ≡ end_in last }
    {
        TextEnd {
            last: Some(last),
            blanks: 0,
        }
    }

    // The end after one symbol more.
    pub fn step(self, symbol: u8) -> TextEnd
        requires { self.blanks < 65536 }
        ensures { result ≡ grown_by self symbol }
    {
        if text_symbols::is_blank(symbol) {
            return TextEnd {
                blanks: self.blanks + 1,
                ..self
            };
        }
        TextEnd::new(symbol)
    }

    // Whether an opening quote behind it gets a thin space.
    pub fn gap(self) -> bool
        ensures { result ≡ gap_at self }
    {
        self.last
            .is_some_and(|last| text_symbols::is_alnum(last) | (last == b'}'))
    }
}

// Behind a closing quote the text goes on at `i`, or, where a thin space is written, behind the blanks there: then that place is answered.
fn after_quote(s: &[u8], i: usize) -> Option<usize>
    requires { i ≤ length s.now }
    ensures { ClosedAt s.now i result }
{
    let next = text_symbols::run_end(s, i, Class::Blank);
    let symbol = text_search::symbol(s, next);
    (text_symbols::is_alnum(symbol) | (symbol == b'"')).then_some(next)
}

// Drops the blanks at the end where a thin space is written, and appends it and `\text{`.
fn put_opening(work: &mut [u8], out: Writer, tail: TextEnd) -> Writer
    requires room { Room work.old out 8 }
    requires blanks_le_count { tail.blanks ≤ out.count }
    ensures { Appended work.old work.new (kept out tail) result (opening_quote tail) }
{
    if tail.gap() {
        return out.cut(tail.blanks).put_all(work, b"\\;\\text{");
    }
    out.put_all(work, b"\\text{")
}

// Writes the text at `source`, quoted text rewritten.
fn rewrite_quotes(work: &mut [u8], source: TextPlace, out: Writer) -> Writer
    requires regions { Regions work.old source.at source.n out × (source.n ≤ most_symbols) }
    requires fresh { out.count ≡ 0 }
    ensures { Written work.old work.new out result (convert_text_quotes (part source.at source.n work.old)) }
{
    let TextPlace { at: from, n } = source;
    let end = from + n;
    let mut out = out;
    let mut quoted = false;
    let mut tail = TextEnd {
        last: None,
        blanks: 0,
    };
    let mut i = 0;
    // The step varies: behind a closing quote blanks may be passed over.
    while i < n {
        let b = work[from + i];
        if b != b'"' {
            out = out.put(work, b);
            tail = tail.step(b);
            i += 1;
            continue;
        }
        if !quoted {
            out = put_opening(work, out, tail);
            tail = TextEnd::new(b'{');
            quoted = true;
            i += 1;
            continue;
        }
        quoted = false;
        let Some(next) = after_quote(&work[from..end], i + 1) else {
            out = out.put(work, b'}');
            tail = TextEnd::new(b'}');
            i += 1;
            continue;
        };
        out = out.put_all(work, b"}\\;");
        tail = TextEnd::new(b';');
        i = next;
    }
    if quoted {
        return out.put(work, b'}');
    }
    out
}

// The stage: `2 "dB"` becomes `2\;\text{dB}`. A last quote that is not closed is closed at the end.
pub fn convert_text_quotes(work: &mut [u8], text: Progress) -> Progress
    requires { Ready work.old text }
    ensures { Staged work.old work.new text result (stage convert_text_quotes) }
{
    let Some(Due { source, out, .. }) = text::due_for(work, text, b"\"") else {
        return text;
    };
    rewrite_quotes(work, source, out).finished()
}
