// What may stand around a pattern.
ghost use Rattle.std.specs.Prelude.{◌≡◌};
ghost use Rattle.name_entry.specs.Bounded.{allowed, left};

#[derive(Clone, Copy)]
pub enum Bounds {
    // Anything.
    Literal,
    // Anything; between letters or behind a backslash the name is spared.
    Greek,
    // No word character before it; behind a backslash, or before a letter or digit, the word is spared.
    Word,
    // No word character on either side; behind a backslash the name is spared.
    Capital,
    // No word character before it, and no letter behind it.
    Defined,
}

// Each kind has one line here, so a closure or a trait in place of the match is no plainer.
impl Bounds {
    // Whether the pattern is taken between these symbols.
    pub fn is_allowed(self, before: u8, behind: u8) -> bool
        ensures { result ≡ allowed self before behind }
    {
        match self {
            Bounds::Literal | Bounds::Greek => true,
            Bounds::Word => !text_symbols::is_word(before),
            Bounds::Capital => !text_symbols::is_word(before) & !text_symbols::is_word(behind),
            Bounds::Defined => !text_symbols::is_word(before) & !text_symbols::is_letter(behind),
        }
    }

    // Whether the pattern, where it is taken, is left as it is.
    pub fn is_left(self, before: u8, behind: u8) -> bool
        ensures { result ≡ left self before behind }
    {
        match self {
            Bounds::Literal | Bounds::Defined => false,
            Bounds::Greek => (before == b'\\')
                | (text_symbols::is_letter(before) | text_symbols::is_letter(behind)),
            Bounds::Word => (before == b'\\') | text_symbols::is_alnum(behind),
            Bounds::Capital => before == b'\\',
        }
    }
}
