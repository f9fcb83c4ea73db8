// Held blocks: `\text{..}` and `\mathrm{..}` are taken out of a text, each leaves a mark, and they go back to their own places.
//
// A text with marks lies in one of the two regions for texts. Behind them, in the work buffer, stand the blocks, one behind the
// other, and then their places.
#![tactic(auto)]

mod back;
mod hold;

ghost use Rattle.std.specs.Prelude.{◌≡◌};
ghost use Rattle.held_blocks.specs.Filing.{blocks_from, places_from};

pub use back::put_back;
pub use hold::hold_out;
use text::Writer;

// The marks of `\text` and of `\mathrm` blocks.
pub const TEXT_MARK: u8 = 2;

pub const ROMAN_MARK: u8 = 3;

// Where the blocks stand, behind the two regions, and their places behind them: a place is a block's start and its length, two bytes
// each. A `\mathrm` block is stored with the marks in it, so blocks can take more bytes than the text has symbols.
pub const BLOCKS_AT: usize = 2 * text::CAP;

const BLOCKS_ROOM: usize = 11_264;

const PLACES_AT: usize = BLOCKS_AT + BLOCKS_ROOM;

const PLACES_ROOM: usize = 5_120;

// Blocks that are held out: how many bytes they fill, and how many their places.
#[derive(Clone, Copy)]
pub struct Blocks {
    pub used: usize,
    pub filed: usize,
}

impl Blocks {
    // Behind the blocks.
    fn writer(self) -> Writer
        ensures { result ≡ blocks_from self.used }
    {
        Writer {
            to: BLOCKS_AT,
            cap: BLOCKS_ROOM,
            count: self.used,
        }
    }

    // Behind their places.
    fn places_writer(self) -> Writer
        ensures { result ≡ places_from self.filed }
    {
        Writer {
            to: PLACES_AT,
            cap: PLACES_ROOM,
            count: self.filed,
        }
    }
}

// A text with marks: its length, and the blocks with those held before.
#[derive(Clone, Copy)]
pub struct Marked {
    pub len: usize,
    pub blocks: Blocks,
}
