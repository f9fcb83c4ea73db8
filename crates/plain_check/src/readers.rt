// A reader for each rule of the grammar. A sum holds factors and a factor may hold a sum, so the readers call each other; the unread
// length falls.
//
// Of stack: products and factors are read by loops, so calls nest no deeper than parentheses. A loop calls its reader at one place, so
// that the two are compiled into one frame. An atom is read at two, so that the table of Greek names is in no frame that nests.
//
// Sums and products have a function each: one for both would be handed the reader, the test and the gap, and be no plainer.
ghost use Rattle.std.specs.Prelude.{◌<◌};
ghost use Rattle.plain_check.specs.Readers.{Answers, read_sum, read_product, read_factor, read_operand, read_scripts, read_script};

use super::tokens;
use plain_parts::PlainPart;

// A sum: products with ` + ` or ` - ` between them.
#[cycle(readers)]
pub fn sum(s: &[u8]) -> Option<PlainPart>
    ensures { Answers read_sum 4 s.now result }
{
    // What has been read, and where the next product begins: the step varies.
    let mut front = None;
    let mut t = s;
    loop {
        let p = plain_parts::behind(front, 3, product(t))?;
        let u = tokens::rest(s, p.used);
        if !tokens::sign_next(u) {
            return Some(p);
        }
        front = Some(p);
        t = tokens::rest(u, 3);
    }
}

// A product: factors with one space between them.
#[cycle(readers)]
fn product(s: &[u8]) -> Option<PlainPart>
    ensures { Answers read_product 3 s.now result }
{
    // What has been read, and where the next factor begins: the step varies.
    let mut front = None;
    let mut t = s;
    loop {
        let p = plain_parts::behind(front, 1, factor(t))?;
        let u = tokens::rest(s, p.used);
        if !tokens::factor_next(u) {
            return Some(p);
        }
        front = Some(p);
        t = tokens::rest(u, 1);
    }
}

// A factor: an atom with its scripts, a fraction, or a sum in parentheses.
#[cycle(readers)]
fn factor(s: &[u8]) -> Option<PlainPart>
    ensures { Answers read_factor 2 s.now result }
{
    if let Some(n) = tokens::atom(s) {
        let t = tokens::rest(s, n);
        if text_search::symbol(t, 0) != b'/' {
            return plain_parts::scripted(n, scripts(t));
        }
    }
    let p = operand(s)?;
    let u = tokens::rest(s, p.used);
    if text_search::symbol(u, 0) == b'/' {
        return plain_parts::divided(p, operand(tokens::rest(u, 1)));
    }
    Some(p)
}

// An operand: an atom, or a sum in parentheses.
#[cycle(readers)]
fn operand(s: &[u8]) -> Option<PlainPart>
    ensures { Answers read_operand 1 s.now result }
{
    if let Some(n) = tokens::atom(s) {
        return plain_parts::leaf(n, 1, true);
    }
    if text_search::symbol(s, 0) == b'(' {
        let t = tokens::rest(s, 1);
        return plain_parts::closed(t, sum(t));
    }
    None
}

// The scripts of an atom: one of `_`, then one of `^`. Either may be missing.
#[cycle(readers)]
fn scripts(s: &[u8]) -> Option<PlainPart>
    ensures { Answers read_scripts 1 s.now result }
{
    let p = script(s, b'_')?;
    plain_parts::adjoined(p, 0, script(tokens::rest(s, p.used), b'^'))
}

// A sign and a script: one letter or digit, or a sum in parentheses. Where the sign is missing, nothing is read.
#[cycle(readers)]
fn script(s: &[u8], sign: u8) -> Option<PlainPart>
    requires { 0 < sign }
    ensures { Answers (read_script sign) 0 s.now result }
{
    if text_search::symbol(s, 0) != sign {
        return plain_parts::leaf(0, 0, true);
    }
    let t = tokens::rest(s, 1);
    if text_symbols::is_alnum(text_search::symbol(t, 0)) {
        return plain_parts::leaf(2, 0, false);
    }
    plain_parts::enclosed_script(operand(t))
}
