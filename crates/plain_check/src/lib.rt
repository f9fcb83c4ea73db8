// The plain check: is a text one sum by document 01's rules, and of how many atoms?
//
// A reader for each rule calls those of its parts, each on what is left to read.
#![tactic(auto)]

mod readers;
mod tokens;

ghost use Rattle.plain_check.specs.Check.{Checked};

// The number of atoms of a plain text, or none where the text is not plain: a plain text has at most 4,096 bytes, and the whole of it is
// one sum.
pub fn plain_check(s: &[u8]) -> Option<usize>
    ensures { Checked s.now result }
{
    if text::MOST_FORMULA < s.len() {
        return None;
    }
    let p = readers::sum(s)?;
    if p.used == s.len() {
        Some(p.atoms)
    } else {
        None
    }
}
