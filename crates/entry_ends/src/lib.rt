// The two ends of the entry: whether a formula, its table and its tall field are admitted, and the finished text put out.
#![tactic(auto)]

mod admission;
mod output;

pub use admission::{admit, check};
pub use output::put_out;
use text::Refusal;

// The byte count of the LaTeX, or why there is none.
pub type Answer = Result<usize, Refusal>;
