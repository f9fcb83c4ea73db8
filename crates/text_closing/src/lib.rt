// Closing searches: where an opened bracket is closed.
#![tactic(auto)]

mod backward;
mod level;

ghost use Rattle.std.specs.Prelude.{◌≡◌, ◌≤◌, ◌<◌, length};
ghost use Rattle.text_search.specs.Half.{half_work};
ghost use Rattle.spec.specs.Closing.{close, find_matching_paren, find_matching_brace, matching_delimiter};
ghost use Rattle.text_search.specs.Search.{Closes};
ghost use Rattle.text_closing.specs.Closing.{started, stepped};

pub use backward::find_closer_back;
pub use level::is_level;

// How deep the brackets of one kind are open.
#[derive(Clone, Copy)]
pub struct Tally {
    pub opener: u8,
    pub closer: u8,
    pub depth: usize,
}

impl Tally {
    // The greatest depth, which no text within number 5's limit passes. A text may be up to twice as long while it is
    // rewritten; one that has come to this depth has too few symbols left to close them all.
    pub const GREATEST: usize = 8_193;

    // One bracket has been opened.
    pub fn new(opener: u8, closer: u8) -> Tally
        ensures { result ≡ started opener closer }
    {
        Tally {
            opener,
            closer,
            depth: 1,
        }
    }

    // The tally after a symbol, while a bracket is open.
    pub fn step(self, symbol: u8) -> Tally
        requires depth_nonzero { 0 < self.depth }
        requires depth_bound { self.depth < Tally.GREATEST }
        ensures { result ≡ stepped self symbol }
    {
        let mut next = self;
        if symbol == self.opener {
            next.depth = self.depth + 1;
        } else if symbol == self.closer {
            next.depth = self.depth - 1;
        }
        next
    }
}

// The offset of the closer of one open bracket: the first at which the tally comes to 0.
pub fn find_closer(s: &[u8], opener: u8, closer: u8) -> Option<usize>
    requires { length s.now ≤ half_work }
    ensures { Closes s.now result (close opener closer 0 s.now) }
{
    let mut tally = Tally::new(opener, closer);
    for (i, b) in s.iter().enumerate() {
        if tally.depth == Tally::GREATEST {
            return None;
        }
        tally = tally.step(*b);
        if tally.depth == 0 {
            return Some(i);
        }
    }
    None
}

// The offset of the `)` that closes a group whose `(` has been passed.
pub fn find_matching_paren(s: &[u8]) -> Option<usize>
    requires { length s.now ≤ half_work }
    ensures { Closes s.now result (find_matching_paren s.now) }
{
    find_closer(s, b'(', b')')
}

// The offset of the `}` that closes a group whose `{` has been passed.
pub fn find_matching_brace(s: &[u8]) -> Option<usize>
    requires { length s.now ≤ half_work }
    ensures { Closes s.now result (find_matching_brace s.now) }
{
    find_closer(s, b'{', b'}')
}

// The offset of the closer that belongs to the bracket that the text begins with.
pub fn matching_delimiter(s: &[u8], opener: u8, closer: u8) -> Option<usize>
    requires { length s.now ≤ half_work }
    ensures { Closes s.now result (matching_delimiter opener closer s.now) }
{
    if s.is_empty() {
        return None;
    }
    let k = find_closer(&s[1..], opener, closer)?;
    Some(k + 1)
}
