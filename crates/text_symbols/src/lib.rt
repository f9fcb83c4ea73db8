// Symbols of a text: their classes, runs of a class, and spans without the symbols of a class at their ends.
#![tactic(auto)]

mod classes;
mod runs;
mod spans;

pub use classes::{is_alnum, is_blank, is_digit, is_letter, is_script_sign, is_word};
pub use runs::{all_in, run_end, run_start};
pub use spans::{skip_end, trim};

// The symbols from `start` up to `end`.
#[derive(Clone, Copy)]
pub struct Span {
    pub start: usize,
    pub end: usize,
}

// Symbols that may stand in a run.
#[derive(Clone, Copy)]
pub enum Class {
    Blank,
    Letter,
    Digit,
    Alnum,
    // What a formula may hold: no foreign byte.
    Formula,
    // What a definition's LaTeX may hold: no `$` either.
    Latex,
    Only(u8),
    Except(u8),
}
