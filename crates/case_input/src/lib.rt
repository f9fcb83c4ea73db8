// The cases on standard input of a program that answers them one after another. A case is the lengths of its two parts, two bytes each, most
// significant first; then the one part; then the other.
#![tactic(auto)]

ghost use Rattle.std.specs.Prelude.{IfOk};
ghost use Rattle.case_input.specs.Lengths.{Limited};

use std::io;
use std::io::Read;

// A case, by the lengths of its two parts.
#[derive(Clone, Copy)]
pub struct Case {
    pub first: usize,
    pub second: usize,
}

// Reads the lengths of the next case, whose parts have at most so many bytes: none where the input ends, or a part is longer.
pub fn next_case<R: Read>(reader: &mut R, most: usize, other: usize) -> io::Result<Option<Case>>
    ensures { IfOk result (Limited most other) }
{
    let mut lengths = [0u8; 4];
    if filling::read_full(reader, &mut lengths)? < 4 {
        return Ok(None);
    }
    let [a, b, c, d] = lengths;
    let first = usize::from(u16::from_be_bytes([a, b]));
    let second = usize::from(u16::from_be_bytes([c, d]));
    if most < first || other < second {
        return Ok(None);
    }
    Ok(Some(Case { first, second }))
}
