// Texts in a lent buffer, and what all stages share: how far a formula has come, the refusals, the limits of document 01.
//
// A stage reads a text in one region of the work buffer and writes its own to the other.
#![tactic(auto)]

mod writer;

ghost use Rattle.std.specs.Prelude.{◌≡◌};
ghost use Rattle.text.specs.Stage.{Ready, number as numbered};
ghost use Rattle.text.specs.Due.{Awaited};

pub use writer::{Writer, clear};

// Number 2: the most bytes of a formula, and so of a plain text.
pub const MOST_FORMULA: usize = 4_096;

// The tall field in which all five commands count, as in the Rust. Number 15 is for a value above it.
pub const ALL_TALL: u32 = 31;

// The most symbols of a stage's finished text, and so the room of each of the two regions that texts lie in.
pub const CAP: usize = 8_192;

// Why a call is refused, by the trade's words, with document 01's number, or document 02's for 15 and 16. `LostBlock` is kept for its number:
// no call gives it. `NoWord` is met by the word under the pointer alone.
#[derive(Clone, Copy)]
pub enum Refusal {
    ForeignByte = 1,
    LongFormula = 2,
    FaultyTable = 3,
    NarrowWork = 4,
    Overgrown = 5,
    LostBlock = 6,
    Unsettled = 7,
    BareDelimiter = 8,
    BarredSolidus = 9,
    ShortOutput = 10,
    TallField = 15,
    NoWord = 16,
}

impl From<Refusal> for u64 {
    ghost from_gives = { λ why n. n ≡ numbered why };

    fn from(why: Refusal) -> u64 {
        why as u64
    }
}

// Where a text lies in the work buffer, and its length.
#[derive(Clone, Copy)]
pub struct TextPlace {
    pub at: usize,
    pub n: usize,
}

// How far a formula has come: its text, or its refusal. A stage is given either, so that a refused formula passes through as it is.
pub type Progress = Result<TextPlace, Refusal>;

// What a stage that waits for a pattern has to do: it rewrites the text at `source` to the other region, and the pattern stands at `first`
// for the first time.
#[derive(Clone, Copy)]
pub struct Due {
    pub source: TextPlace,
    pub out: Writer,
    pub first: usize,
}

// What there is to do, or nothing: the text has been refused before, or the pattern is nowhere in it.
pub fn due_for(work: &[u8], text: Progress, pattern: &[u8]) -> Option<Due>
    requires { Ready work.now text }
    ensures { Awaited work.now text pattern.now result }
{
    let Ok(source) = text else {
        return None;
    };
    let from = source.at;
    let end = from + source.n;
    let first = text_search::find(&work[from..end], pattern)?;
    Some(Due {
        source,
        out: Writer::new(CAP - from),
        first,
    })
}
