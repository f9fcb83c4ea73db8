// Document 02's A10, of three calls that are made. `calls-join` in crates/plain_printing/specs/Joins.antt states it of any three.
ghost use Rattle.std.specs.Prelude.{◌≡◌, true, ℕ, ◌≤◌, length, take};
ghost use Rattle.spec.specs.Grammar.{Plain};
ghost use Rattle.spec.specs.Pipeline.{least_work, Call};
ghost use Rattle.plain_printing.specs.Calls.{NoRecords, latex_of};
ghost use Rattle.plain_printing.specs.Joins.{joined};
ghost use Rattle.entry_ends.specs.Answer.{meaning};

use math_conv::{Answer, typst_to_latex};

#[derive(Clone, Copy)]
pub struct Triple {
    pub first: Answer,
    pub second: Answer,
    pub join: Answer,
}

// Converts two formulas and a third under one tall field, each with display on, a table and buffers of its own. Where the third is the join of the
// first two by ` + `, these are plain by the grammar and the tables have no records: if all three are accepted, the join's output is the two
// outputs, joined by ` + `; and if the join is accepted, so is each of the two whose buffers suffice.
pub fn both_and_join(
    field: u32,
    formula1: &[u8],
    table1: &[u8],
    work1: &mut [u8],
    output1: &mut [u8],
    formula2: &[u8],
    table2: &[u8],
    work2: &mut [u8],
    output2: &mut [u8],
    formula: &[u8],
    table: &[u8],
    work: &mut [u8],
    output: &mut [u8],
) -> Triple
    ensures first { Call formula1.now table1.now true field work1.old output1.old (meaning result.first) work1.new output1.new }
    ensures second { Call formula2.now table2.now true field work2.old output2.old (meaning result.second) work2.new output2.new }
    ensures whole { Call formula.now table.now true field work.old output.old (meaning result.join) work.new output.new }
    ensures joins { (k n m : ℕ) → result.join ≡ Ok k → result.first ≡ Ok n → result.second ≡ Ok m → NoRecords table.now → NoRecords table1.now → NoRecords table2.now → formula.now ≡ joined formula1.now formula2.now → Plain formula1.now → Plain formula2.now → take k output.new ≡ joined (take n output1.new) (take m output2.new) }
    ensures first_accepted { (k : ℕ) → result.join ≡ Ok k → NoRecords table.now → NoRecords table1.now → formula.now ≡ joined formula1.now formula2.now → (p : Plain formula1.now) → Plain formula2.now → least_work ≤ length work1.old → length (latex_of field p) ≤ length output1.old → result.first ≡ Ok (length (latex_of field p)) }
    ensures second_accepted { (k : ℕ) → result.join ≡ Ok k → NoRecords table.now → NoRecords table2.now → formula.now ≡ joined formula1.now formula2.now → Plain formula1.now → (q : Plain formula2.now) → least_work ≤ length work2.old → length (latex_of field q) ≤ length output2.old → result.second ≡ Ok (length (latex_of field q)) }
{
    Triple {
        first: typst_to_latex(formula1, table1, true, field, work1, output1),
        second: typst_to_latex(formula2, table2, true, field, work2, output2),
        join: typst_to_latex(formula, table, true, field, work, output),
    }
}
