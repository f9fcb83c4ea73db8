// What stands at a place of a level: a script group, a tall group, or a symbol.
ghost use Rattle.std.specs.Prelude.{◌+◌, ◌%◌, ◌≤◌, ◌<◌, ◌≡◌, ◌&&◌, ◌||◌, reverse, eqb, length, get_or, drop};
ghost use Rattle.text_search.specs.Half.{half_work};
ghost use Rattle.spec.specs.Symbols.{bytes, contains};
ghost use Rattle.spec.specs.Finish.{tall, script_group, already_sized};
ghost use Rattle.text_search.specs.Search.{Closes};
ghost use Rattle.text_symbols.specs.Places.{before};
ghost use Rattle.sizing.specs.Pieces.{TallIn, TallAt, PieceFor};

use super::{Piece, closer_of};

// Whether the command counts and occurs. It counts by the last of the bits: those of the tall field down to its own. The bits are the interface's.
fn has(s: &[u8], command: &[u8], bits: u32) -> bool
    ensures { result ≡ eqb (bits % 2) 1 && contains command.now s.now }
{
    (bits % 2 == 1) && text_search::contains(s, command)
}

fn is_tall(s: &[u8], field: u32) -> bool
    ensures { result ≡ tall field s.now }
{
    has(s, b"\\frac", field / 16)
        | (has(s, b"\\sqrt", field / 8)
            | (has(s, b"\\binom", field / 4)
                | (has(s, b"\\sum", field / 2) | has(s, b"\\int", field))))
}

// Whether a delimiter that can be sized occurs.
pub fn has_delimiter(s: &[u8]) -> bool
    ensures { result ≡ contains (bytes "(") s.now || contains (bytes "[") s.now }
{
    text_search::contains(s, b"(") | text_search::contains(s, b"[")
}

// Whether the delimiter at a place has its size already.
fn is_sized(s: &[u8], i: usize) -> bool
    requires { i ≤ length s.now }
    ensures { result ≡ already_sized (before s.now i) }
{
    let behind = &s[..i];
    behind.ends_with(b"\\left") | behind.ends_with(b"\\right")
}

// The closer of the script group that begins at a place, counted from behind its sign.
fn script_at(s: &[u8], i: usize) -> Option<usize>
    requires { (i < length s.now) × (length s.now ≤ half_work) }
    ensures { Closes (drop (i + 1) s.now) result (script_group (get_or s.now i 0) (drop (i + 1) s.now)) }
{
    let next = i + 1;
    if text_symbols::is_script_sign(s[i]) & (text_search::symbol(s, next) == b'{') {
        return text_closing::matching_delimiter(&s[next..], b'{', b'}');
    }
    None
}

// The closer of a bracket that stands before the text, if what lies between is tall.
fn tall_inside(s: &[u8], opener: u8, closer: u8, field: u32) -> Option<usize>
    requires { length s.now ≤ half_work }
    ensures { TallIn field s.now opener closer result }
{
    let k = text_closing::find_closer(s, opener, closer)?;
    is_tall(&s[..k], field).then_some(k)
}

// The closer of the tall group that begins at a place, counted from behind its opener.
fn tall_at(s: &[u8], i: usize, field: u32) -> Option<usize>
    requires { (i < length s.now) × (length s.now ≤ half_work) }
    ensures { TallAt field s.now i result }
{
    let b = s[i];
    let opens = (b == b'(') | (b == b'[');
    // Only before a delimiter that opens is the text looked at: most symbols are none.
    if !opens || is_sized(s, i) {
        return None;
    }
    tall_inside(&s[i + 1..], b, closer_of(b), field)
}

// What is done at a place: a script group comes before a tall one.
pub fn piece_at(s: &[u8], i: usize, field: u32) -> Piece
    requires { (i < length s.now) × (length s.now ≤ half_work) }
    ensures { PieceFor field s.now i result }
{
    if let Some(j) = script_at(s, i) {
        return Piece::Keep(j + 2);
    }
    tall_at(s, i, field).map_or(Piece::Keep(1), Piece::Tall)
}
