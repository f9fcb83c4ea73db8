// Searches that hold nothing: how a text begins, whether two are the same, where a pattern stands, what lies at a place.
#![tactic(auto)]

ghost use Rattle.std.specs.Prelude.{◌≡◌, ◌∷◌, ◌≤◌, eqb, length, get_or, drop};
ghost use Rattle.spec.specs.Symbols.{any, same, starts, find as found, contains as occurs};
ghost use Rattle.text_search.specs.Search.{Finds, Gap, Passed, Sought};

// Whether the text begins with the pattern.
pub fn starts_with(s: &[u8], pattern: &[u8]) -> bool
    ensures { result ≡ starts pattern.now s.now }
{
    let [k, rest @ ..] = pattern else {
        return true;
    };
    let [x, behind @ ..] = s else {
        return false;
    };
    // Most places are told by the first symbol, where std's own test is a call that goes through the whole pattern.
    if x != k {
        return false;
    }
    rest.len() <= behind.len() && rest.iter().zip(behind).all(|(k, x)| k == x)
}

// Whether the two texts are the same.
pub fn is_same(a: &[u8], b: &[u8]) -> bool
    ensures { result ≡ same a.now b.now }
{
    a == b
}

// Whether the symbol is among these 8. All of them are looked at, which the compiler does at once.
fn is_among(block: &[u8], b: u8) -> bool
    requires { length block.now ≡ 8 }
    ensures { result ≡ any (λ x. eqb x b) block.now }
{
    let mut among = false;
    for x in block {
        among |= *x == b;
    }
    among
}

// Passes over 8 symbols at a time, from i on, as long as the symbol is not among them. The last 8 may overlap those before.
// How far it comes is not said, only that the symbol was not passed over: the rest is `seek`'s.
fn pass(s: &[u8], i: usize, b: u8) -> usize
    requires { i ≤ length s.now }
    ensures { Passed s.now i b result }
{
    let mut k = i;
    // The place is the answer: over chunks of the slice it would have to be counted beside them.
    while 8 <= s.len() - k {
        let end = k + 8;
        if is_among(&s[k..end], b) {
            return k;
        }
        k = end;
    }
    if s.len() < 8 {
        return k;
    }
    let last = s.len() - 8;
    if is_among(&s[last..], b) {
        return k;
    }
    s.len()
}

// The first place from i on where the symbol stands, or the end.
fn seek(s: &[u8], i: usize, b: u8) -> usize
    requires { i ≤ length s.now }
    ensures { Sought s.now i b result }
{
    for k in pass(s, i, b)..s.len() {
        if s[k] == b {
            return k;
        }
    }
    s.len()
}

// The place of the pattern's first occurrence. Only where its first symbol stands is more of it looked at.
pub fn find(s: &[u8], pattern: &[u8]) -> Option<usize>
    ensures { Finds s.now result (found pattern.now s.now) }
{
    let first = symbol(pattern, 0);
    let mut i = 0;
    // The step varies: the search goes on where the first symbol stands next.
    while i < s.len() {
        if starts_with(&s[i..], pattern) {
            return Some(i);
        }
        i = seek(s, i + 1, first);
    }
    None
}

// The place of its first occurrence from `start` on.
pub fn find_from(s: &[u8], start: usize, pattern: &[u8]) -> Option<usize>
    requires { start ≤ length s.now }
    ensures { Finds s.now result (found pattern.now (drop start s.now)) }
{
    let k = find(&s[start..], pattern)?;
    Some(start + k)
}

// How many symbols stand before its first occurrence: all of them, where there is none.
pub fn gap(s: &[u8], pattern: &[u8]) -> usize
    ensures { Gap pattern.now s.now result }
{
    find(s, pattern).unwrap_or(s.len())
}

// Whether the pattern occurs.
pub fn contains(s: &[u8], pattern: &[u8]) -> bool
    ensures { result ≡ occurs pattern.now s.now }
{
    find(s, pattern).is_some()
}

// The symbol at a place, or 0 past the end.
pub fn symbol(s: &[u8], i: usize) -> u8
    ensures { result ≡ get_or s.now i 0 }
{
    s.get(i).copied().unwrap_or(0)
}

// The symbol before a place, or 0 at the start.
pub fn symbol_before(s: &[u8], i: usize) -> u8
    ensures { result ≡ get_or (0 ∷ s.now) i 0 }
{
    // No `checked_sub`: loops that ask this keep its bound up in each turn.
    if i == 0 { 0 } else { symbol(s, i - 1) }
}
