// Delimiters around tall content get `\left` and `\right`, and so do those within them: the function calls itself on what stands
// between two matched delimiters. Whether a delimiter is sized already is read in the text: what is written ends like what was read.
#![tactic(auto)]

mod pieces;

ghost use Rattle.std.specs.Prelude.{◌+◌, ◌≡◌, [], ◌∷◌, ◌++◌, length};
ghost use Rattle.spec.specs.Result.{stage, most_symbols};
ghost use Rattle.spec.specs.Finish.{size_delimiters_to_content};
ghost use Rattle.text.specs.Writer.{Room, Appended, Regions};
ghost use Rattle.text.specs.Stage.{Ready, Staged};
ghost use Rattle.sizing.specs.Pieces.{closer_of};
ghost use Rattle.sizing.specs.Turns.{DelimitersSized};

pub use pieces::piece_at;
use text::{Progress, TextPlace, Writer};

// What is done at a place.
#[derive(Clone, Copy)]
pub enum Piece {
    // So many symbols are copied: a script group, or one symbol.
    Keep(usize),
    // A tall group begins here, with so many symbols between its delimiters.
    Tall(usize),
}

// The delimiter that closes this one.
fn closer_of(b: u8) -> u8
    ensures { result ≡ closer_of b }
{
    if b == b'(' { b')' } else { b']' }
}

// Appends a command and its delimiter.
fn put_sized(work: &mut [u8], out: Writer, command: &[u8], b: u8) -> Writer
    requires { Room work.old out (length command.now + 1) }
    ensures { Appended work.old work.new out result (command.now ++ b ∷ []) }
{
    let end = out.put_all(work, command);
    end.put(work, b)
}

// Appends the text at `source`, with tall groups sized, on every level. The writer is lent: by value, each level would hold one of its own.
fn size(work: &mut [u8], source: TextPlace, out: &mut Writer, field: u32)
    requires { Regions work.old source.at source.n out.old }
    ensures { DelimitersSized field work.old work.new source out.old out.new }
{
    let TextPlace { at: from, n } = source;
    let end = from + n;
    let mut i = 0;
    // The step varies: a script group or a tall one is passed as a whole.
    while i < n {
        let at = from + i;
        match piece_at(&work[from..end], i, field) {
            Piece::Keep(k) => {
                *out = out.copy(work, at, k);
                i += k;
            }
            Piece::Tall(k) => {
                let b = work[at];
                *out = put_sized(work, *out, b"\\left", b);
                let inside = i + 1;
                let content = TextPlace {
                    at: from + inside,
                    n: k,
                };
                size(work, content, out, field);
                *out = put_sized(work, *out, b"\\right", closer_of(b));
                i += k + 2;
            }
        }
    }
}

// The stage. Without a delimiter that opens, the text stays where it is.
pub fn size_delimiters_to_content(work: &mut [u8], text: Progress, field: u32) -> Progress
    requires { Ready work.old text }
    ensures { Staged work.old work.new text result (stage (size_delimiters_to_content field)) }
{
    let source = text?;
    let TextPlace { at: from, n } = source;
    let end = from + n;
    if !pieces::has_delimiter(&work[from..end]) {
        return text;
    }
    let mut out = Writer::new(text::CAP - from);
    size(work, source, &mut out, field);
    out.finished()
}
