// What the searches of a call pass over: parentheses between a quote and the next one, as request A8 of document 02 has it.
#![tactic(auto)]

ghost use Rattle.std.specs.Prelude.{◌≡◌, true, false, ◌+◌, ◌≤◌, ◌<◌, length, get_or, drop};
ghost use Rattle.text_search.specs.Half.{half_work};
ghost use Rattle.text_search.specs.Search.{Finds, Closes};
ghost use Rattle.spec.specs.Symbols.{bytes, is, find};
ghost use Rattle.spec.specs.Closing.{find_matching_paren, over_quotes, quoted_after, seen_as};
ghost use Rattle.call_quotes.specs.Quotes.{PastQuotes};

use text_closing::Tally;

// The place of the next quote from `start` on. It is near, where there is one, so symbol by symbol is faster than `find`.
fn next_quote(s: &[u8], start: usize) -> Option<usize>
    requires { start ≤ length s.now }
    ensures { Finds s.now result (find (bytes "\"") (drop start s.now)) }
{
    for k in start..s.len() {
        if s[k] == b'"' {
            return Some(k);
        }
    }
    None
}

// Whether a search stands between a quote and the next one.
#[derive(Clone, Copy)]
pub struct Quotes {
    pub quoted: bool,
}

impl Quotes {
    // A search begins outside quotes.
    pub fn new() -> Quotes
        ensures { result.quoted ≡ false }
    {
        Quotes { quoted: false }
    }

    // The symbol as the search sees it: a quoted parenthesis is no more than a quote, which is not counted.
    pub fn seen(self, symbol: u8) -> u8
        ensures { result ≡ seen_as self.quoted symbol }
    {
        if self.quoted & ((symbol == b'(') | (symbol == b')')) {
            return b'"';
        }
        symbol
    }

    // Behind the symbol at place i. A quote with no next one is an ordinary symbol.
    pub fn step(self, s: &[u8], i: usize) -> Quotes
        requires { i < length s.now }
        ensures { result.quoted ≡ quoted_after self.quoted (get_or s.now i 0) (drop (i + 1) s.now) }
    {
        if s[i] != b'"' {
            return self;
        }
        Quotes {
            quoted: !self.quoted && next_quote(s, i + 1).is_some(),
        }
    }
}

// Where a closing search goes on that has come to the quote at place i: behind the next one, or behind this one if it is the last.
fn past_quotes(s: &[u8], i: usize) -> usize
    requires { (i < length s.now) × (is "\"" (get_or s.now i 0) ≡ true) }
    ensures { PastQuotes s.now i result }
{
    let next = i + 1;
    next_quote(s, next).map_or(next, |k| k + 1)
}

// The offset of the `)` that closes a call whose `(` has been passed. Most symbols are neither quotes nor parentheses, which one test of
// their range tells.
pub fn find_call_end(s: &[u8]) -> Option<usize>
    requires { length s.now ≤ half_work }
    ensures { Closes (over_quotes s.now) result (find_matching_paren (over_quotes s.now)) }
{
    let mut tally = Tally::new(b'(', b')');
    let mut i = 0;
    // The step varies: behind a quote the search goes on past the next one. So it is a loop of its own beside `text_closing::find_closer`.
    while i < s.len() {
        let b = s[i];
        if (b < b'"') | (b > b')') {
            i += 1;
            continue;
        }
        if b == b'"' {
            i = past_quotes(s, i);
            continue;
        }
        if tally.depth == Tally::GREATEST {
            return None;
        }
        tally = tally.step(b);
        if tally.depth == 0 {
            return Some(i);
        }
        i += 1;
    }
    None
}
