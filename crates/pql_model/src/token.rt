use crate::ParseKind;
use containers::{Sequence, Text};
use ion_values::Value;

/// A symbol of one or two characters.
#[derive(Clone, Copy, Debug, PartialEq, Eq)]
pub enum Symbol {
    /// `<<`
    BagOpen,
    /// `>>`
    BagClose,
    /// `<>`
    LessGreater,
    /// `!=`
    BangEqual,
    /// `<=`
    LessEqual,
    /// `>=`
    GreaterEqual,
    /// `||`
    Bars,
    Equal,
    Less,
    Greater,
    Plus,
    Minus,
    Star,
    Slash,
    Percent,
    Open,
    Close,
    ListOpen,
    ListClose,
    StructOpen,
    StructClose,
    Comma,
    Colon,
    Semicolon,
    Point,
    At,
}

/// A token of a statement.
#[derive(Drop)]
pub enum Token {
    /// A reserved word, or a name without quotes, as it is written.
    Word(Text),
    /// A name in double quotes, without them.
    Quoted(Text),
    /// A string, without its quotes.
    String(Text),
    /// An int, a decimal or an Ion value between backquotes.
    Value(Value),
    /// A `?` by its number, counted from 0.
    Parameter(u32),
    Symbol(Symbol),
    /// What is refused itself, or where no token begins.
    Bad(ParseKind),
    /// The end of the text.
    End,
}

/// Tokens in order.
pub type Tokens = Sequence<Located>;

/// A token and the offset of its first byte.
#[derive(Drop)]
pub struct Located {
    pub token: Token,
    pub at: usize,
}

/// What stands at the front of a text.
#[derive(Drop)]
pub enum Lexed {
    /// White space or a comment, with how many of its bytes follow the first.
    Blank(usize),
    /// A token, with how many of its bytes follow the first.
    Token(Token, usize),
    /// A token that is refused itself, or none.
    Refused(ParseKind),
}
