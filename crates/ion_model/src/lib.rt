//! The definitions of Ion text: its tokens, which of them a container takes next, and the one spelling of each
//! value. The contracts of the reader and of the writer cite them.
#![tactic(auto)]

mod laws;

use ion_values::{Bytes, Decimal, Fields, IonKind, IonTime, Kind, Names, Text, Values};
pub use laws::texts_are_utf8;

/// A token of Ion text.
#[derive(Drop)]
pub enum Token {
    /// A value that is one token.
    Scalar(Scalar),
    /// A symbol. `quoted` tells whether it stood in single quotes.
    Symbol { text: Text, quoted: bool },
    /// A run of operator characters, which is a symbol in a sexp alone.
    Operator(Text),
    /// A string in double quotes.
    String(Text),
    /// A segment of a long string.
    Segment(Text),
    ListOpen,
    ListClose,
    SexpOpen,
    SexpClose,
    StructOpen,
    StructClose,
    Comma,
    Colon,
    DoubleColon,
}

/// A value that is one token, and that is no symbol or string.
#[derive(Drop)]
pub enum Scalar {
    Null(Kind),
    Bool(bool),
    Int(i128),
    Decimal(Decimal),
    Timestamp(IonTime),
    Clob(Bytes),
    Blob(Bytes),
}

/// What stands at the front of a text.
#[derive(Drop)]
pub enum Lexed {
    /// White space or a comment, with how many of its bytes follow the first.
    Blank(usize),
    /// A token, with how many of its bytes follow the first.
    Token(Token, usize),
    /// A token that is refused itself.
    Refused(IonKind),
    /// The text ends inside a token or a comment.
    Cut,
}

/// What a container holds so far. The whole text is a stream of values.
#[derive(Drop)]
pub enum Members {
    Stream(Values),
    List(Values),
    Sexp(Values),
    Struct(Fields),
}

/// What was read last in a container.
#[derive(Drop)]
pub enum Last {
    /// The container's opening, or nothing yet.
    Opening,
    /// The name of a field.
    Name,
    /// The name of a field in segments, which the next segment joins.
    LongName,
    /// The colon behind a name.
    Colon,
    /// An annotation with its `::`.
    Annotation,
    /// A symbol, which is an annotation where `::` comes next, and else a value.
    Symbol { text: Text, quoted: bool },
    /// The segments of a long string, which the next segment joins.
    LongString(Text),
    /// A value that has ended.
    Value,
    Comma,
}

/// An open container, or the whole text. `name` and `annotations` are those of the value that comes
/// next, and `is_table` tells whether an unquoted `$ion_symbol_table` is among the annotations.
#[derive(Drop)]
pub struct Frame {
    pub members: Members,
    pub name: Text,
    pub annotations: Names,
    pub is_table: bool,
    pub last: Last,
}
