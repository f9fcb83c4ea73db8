// Commas that part arguments. The Rust's depth may go below zero, so brackets opened and closed are counted apart: a comma is at
// the top level where they are as many. Quoted parentheses are not counted.
#![tactic(auto)]

ghost use Rattle.std.specs.Prelude.{◌≡◌, ◌≤◌, ◌<◌, ◌+◌, length};
ghost use Rattle.spec.specs.Result.{most_symbols};
ghost use Rattle.spec.specs.Closing.{any_side, find_comma_in_args, find_unescaped_comma, over_quotes, seen_from};
ghost use Rattle.text_search.specs.Search.{Closes};
ghost use Rattle.call_quotes.specs.Quotes.{Sees};
ghost use Rattle.call_commas.specs.Commas.{balanced, CommaMet};
ghost use Rattle.call_commas.specs.Split.{Splits};

use call_quotes::Quotes;

// Brackets of any kind, opened and closed so far.
#[derive(Clone, Copy)]
pub struct Balance {
    pub opened: usize,
    pub closed: usize,
}

impl Balance {
    // As many brackets as a text within number 5's limit can have.
    pub const GREATEST: usize = 8_192;

    pub fn new() -> Balance
        ensures { (result.opened ≡ 0) × (result.closed ≡ 0) }
    {
        Balance {
            opened: 0,
            closed: 0,
        }
    }

    // The balance after a symbol.
    pub fn step(self, symbol: u8) -> Balance
        requires { self.opened + self.closed < Balance.GREATEST }
        ensures { result ≡ balanced self (any_side symbol) }
    {
        let mut next = self;
        match symbol {
            b'(' | b'[' | b'{' => next.opened += 1,
            b')' | b']' | b'}' => next.closed += 1,
            _ => {}
        }
        next
    }
}

// A comma at the top level: its place, and whether the search stands between quotes behind it.
#[derive(Clone, Copy)]
pub struct Comma {
    pub at: usize,
    pub behind: Quotes,
}

// The first comma at the top level, where the text begins inside or outside quotes. Most symbols are small letters, which nothing
// counts.
fn find_comma(s: &[u8], before: Quotes) -> Option<Comma>
    requires { length s.now ≤ most_symbols }
    ensures { CommaMet (seen_from before.quoted s.now) s.now result }
{
    let mut balance = Balance::new();
    let mut quotes = before;
    for (i, b) in s.iter().enumerate() {
        if (*b > b']') & (*b < b'{') {
            continue;
        }
        if *b == b'"' {
            quotes = quotes.step(s, i);
            continue;
        }
        if (*b == b',') & (balance.opened == balance.closed) {
            return Some(Comma {
                at: i,
                behind: quotes,
            });
        }
        balance = balance.step(quotes.seen(*b));
    }
    None
}

// The offset of the first comma that is at the top level.
pub fn find_comma_in_args(s: &[u8]) -> Option<usize>
    requires { length s.now ≤ most_symbols }
    ensures { Closes (over_quotes s.now) result (find_comma_in_args (over_quotes s.now)) }
{
    find_comma(s, Quotes::new()).map(|comma| comma.at)
}

// The offset of the first comma with no backslash before it.
pub fn find_unescaped_comma(s: &[u8]) -> Option<usize>
    ensures { Closes s.now result (find_unescaped_comma s.now) }
{
    let mut previous = 0;
    for (i, b) in s.iter().enumerate() {
        if (*b == b',') & (previous != b'\\') {
            return Some(i);
        }
        previous = *b;
    }
    None
}

// A part of a text: its end, and whether the search stands between quotes behind the comma there.
#[derive(Clone, Copy)]
pub struct Part {
    pub end: usize,
    pub quotes: Quotes,
}

// The part that begins at `start`, of the parts that commas at the top level make of the text: the Rust's vector of parts is
// these, one after another, the next beginning behind the comma.
pub fn split_top_level_commas(s: &[u8], start: usize, quotes: Quotes) -> Part
    requires start_in_bounds { (start ≤ length s.now) × (length s.now ≤ most_symbols) }
    requires sees { Sees (over_quotes s.now) s.now start quotes.quoted }
    ensures splits { Splits (over_quotes s.now) start result.end }
    ensures sees_next { Sees (over_quotes s.now) s.now (result.end + 1) result.quotes.quoted }
{
    let Some(Comma { at, behind }) = find_comma(&s[start..], quotes) else {
        return Part {
            end: s.len(),
            quotes,
        };
    };
    Part {
        end: start + at,
        quotes: behind,
    }
}
