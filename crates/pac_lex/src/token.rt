//! The tokens.

/// What a token is.
#[derive(Clone, Copy)]
pub enum TokenKind {
    /// A letter or `_`, then letters, digits and `_`.
    Name,
    /// A number from 0 to 65,535: its value.
    Number(u16),
    /// Characters in single quotes, in which a doubled quote stands for one.
    Text,
    /// `AF'`, the alternate accumulator and flags.
    AlternateAf,
    /// `$`, the address of the line.
    Dollar,
    /// `:`
    Colon,
    /// `,`
    Comma,
    /// `(`
    Open,
    /// `)`
    Close,
    /// `+`
    Plus,
    /// `-`
    Minus,
    /// `*`
    Star,
    /// `/`
    Slash,
}

/// A token of a line, with the bytes of the line that it is written in.
#[derive(Clone, Copy)]
pub struct Token<'a> {
    /// What it is.
    pub kind: TokenKind,
    /// How it is written.
    pub text: &'a [u8],
}
