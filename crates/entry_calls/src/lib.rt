// What is proved of calls of the entry: here demand 3 of document 01, of two calls that are made; in joins.rt document 02's A10, of three; in
// specs/StarredCalls.antt document 01's starred cases. `calls-apart` in crates/plain_printing/specs/Calls.antt states demand 3 of any two calls.
#![tactic(auto)]

mod joins;

ghost use Rattle.std.specs.Prelude.{◌≡◌, true, ◌≢◌, ℕ, take};
ghost use Rattle.spec.specs.Grammar.{Plain};
ghost use Rattle.spec.specs.Pipeline.{Call};
ghost use Rattle.plain_printing.specs.Calls.{NoRecords};
ghost use Rattle.entry_ends.specs.Answer.{meaning};

pub use joins::{Triple, both_and_join};
use math_conv::{Answer, typst_to_latex};

#[derive(Clone, Copy)]
pub struct Pair {
    pub first: Answer,
    pub second: Answer,
}

// Converts two formulas under one tall field, each with display on, a table and buffers of its own. Where both are accepted and plain by the grammar,
// neither table has records, and the formulas differ in length or in any byte, so do their outputs.
pub fn both(
    field: u32,
    formula1: &[u8],
    table1: &[u8],
    work1: &mut [u8],
    output1: &mut [u8],
    formula2: &[u8],
    table2: &[u8],
    work2: &mut [u8],
    output2: &mut [u8],
) -> Pair
    ensures first { Call formula1.now table1.now true field work1.old output1.old (meaning result.first) work1.new output1.new }
    ensures second { Call formula2.now table2.now true field work2.old output2.old (meaning result.second) work2.new output2.new }
    ensures apart { (n m : ℕ) → result.first ≡ Ok n → result.second ≡ Ok m → NoRecords table1.now → NoRecords table2.now → Plain formula1.now → Plain formula2.now → formula1.now ≢ formula2.now → take n output1.new ≢ take m output2.new }
{
    Pair {
        first: typst_to_latex(formula1, table1, true, field, work1, output1),
        second: typst_to_latex(formula2, table2, true, field, work2, output2),
    }
}
