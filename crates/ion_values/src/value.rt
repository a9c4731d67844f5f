use crate::decimal::Decimal;
use crate::time::IonTime;
use containers::{Bytes, Sequence, Text};

/// The types of Ion 1.0, but float.
#[derive(Clone, Copy, Debug, PartialEq, Eq)]
pub enum Kind {
    Null,
    Bool,
    Int,
    Decimal,
    Timestamp,
    Symbol,
    String,
    Clob,
    Blob,
    List,
    Sexp,
    Struct,
}

/// The texts of symbols, in order.
pub type Names = Sequence<Text>;

/// Values in order.
pub type Values = Sequence<Value>;

/// The fields of a struct in the order in which they are kept, repeated names included.
pub type Fields = Sequence<Field>;

/// A value with its annotations, the first one first.
#[cycle(ion)]
#[derive(Drop)]
pub struct Value {
    pub annotations: Names,
    pub body: Body,
}

/// What a value is without its annotations. A null has the type that it is a null of.
#[cycle(ion)]
#[derive(Drop)]
pub enum Body {
    Null(Kind),
    Bool(bool),
    Int(i128),
    Decimal(Decimal),
    Timestamp(IonTime),
    Symbol(Text),
    String(Text),
    Clob(Bytes),
    Blob(Bytes),
    List(Values),
    Sexp(Values),
    Struct(Fields),
}

/// A field of a struct.
#[cycle(ion)]
#[derive(Drop)]
pub struct Field {
    pub name: Text,
    pub value: Value,
}

/// A scalar without its annotations, by which values are looked up. A moment is in billionths of a
/// second since 1970 in UTC.
#[derive(Debug, Drop)]
pub enum Key {
    Bool(bool),
    Number { coefficient: i128, exponent: i32 },
    Text(Text),
    Moment(i128),
    Clob(Bytes),
    Blob(Bytes),
}
