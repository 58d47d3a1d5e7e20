//! A token of a STIL text.

ghost use Rattle.std.specs.Prelude.{◌≡◌};

/// The kind of a token.
#[derive(Clone, Copy, PartialEq, Eq, Debug)]
pub enum TokenKind {
    /// A longest run of letters, digits and `_`.
    Word,
    /// Text between double quotes.
    Name,
    /// Text between single quotes.
    Text,
    /// Any other printing byte.
    Sign(u8),
}

/// A token, by its place in the text that it was read from.
#[derive(Clone, Copy, PartialEq, Eq, Debug)]
pub struct Token {
    pub kind: TokenKind,
    /// The place of its first byte. A Name and a Text begin at their opening quote.
    pub start: u32,
    /// The place behind its last byte, which in a Name and a Text is the closing quote.
    pub end: u32,
    /// Its line, counted from 1.
    pub line: u32,
}

/// A long text has millions of tokens.
const _: () = prove!(size_of::<Token>() == 16);

impl TokenKind {
    ghost use Rattle.stil_lex.specs.Text.{quote_len};

    fn quote_len(self) -> usize
        ensures { result ≡ quote_len self }
    {
        match self {
            TokenKind::Word => 0,
            TokenKind::Name => 1,
            TokenKind::Text => 1,
            TokenKind::Sign(_) => 0,
        }
    }
}

impl Token {
    ghost use Rattle.stil_lex.specs.Text.{text_of};

    /// The token's text in `bytes`, without its quotes. Places past the end of `bytes` count as its end.
    pub fn text<'a>(&self, bytes: &'a [u8]) -> &'a [u8]
        ensures { result.now ≡ text_of bytes.now self.now }
    {
        let quote = self.kind.quote_len();
        let end = (self.end as usize).saturating_sub(quote).min(bytes.len());
        let start = (self.start as usize).saturating_add(quote).min(end);
        &bytes[start..end]
    }
}
