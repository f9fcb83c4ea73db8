// Closing searches from a place in a text, by the tally of `text_closing`. The two directions stay apart: each promises what it left over by a
// list of its own, so one function for both would be no plainer. A pair of brackets goes as two symbols, as `text_closing` takes it.
ghost use Rattle.spec.specs.Closing.{close, or_end};
ghost use Rattle.std.specs.Prelude.{drop};
ghost use Rattle.text_symbols.specs.Places.{before, AheadTo, BackTo};
ghost use Rattle.fraction_operands.specs.Places.{Place, FoundAhead, FoundBack};

// Behind the closer of a bracket that has been opened.
pub fn closed_after(s: &[u8], start: usize, opener: u8, closer: u8) -> Option<usize>
    requires { Place s.now start }
    ensures { FoundAhead s.now start result (close opener closer 0 (drop start s.now)) }
{
    let k = text_closing::find_closer(&s[start..], opener, closer)?;
    Some(start + k + 1)
}

// The same, or the end.
pub fn past_group(s: &[u8], start: usize, opener: u8, closer: u8) -> usize
    requires { Place s.now start }
    ensures { AheadTo s.now start result (or_end (close opener closer 0 (drop start s.now))) }
{
    closed_after(s, start, opener, closer).unwrap_or(s.len())
}

// The place of the bracket that a closing one belongs to, which stands at `end`.
pub fn closed_before(s: &[u8], end: usize, opener: u8, closer: u8) -> Option<usize>
    requires { Place s.now end }
    ensures { FoundBack s.now end result (close opener closer 0 (before s.now end)) }
{
    text_closing::find_closer_back(&s[0..end], opener, closer)
}

// The same, or the start.
pub fn before_group(s: &[u8], end: usize, opener: u8, closer: u8) -> usize
    requires { Place s.now end }
    ensures { BackTo s.now end result (or_end (close opener closer 0 (before s.now end))) }
{
    closed_before(s, end, opener, closer).unwrap_or(0)
}
