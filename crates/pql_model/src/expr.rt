use containers::{Boxed, Sequence, Text};
use ion_values::Value;

/// The operators that stand between two operands.
#[derive(Clone, Copy, Debug, PartialEq, Eq)]
pub enum Operator {
    Or,
    And,
    Equal,
    NotEqual,
    Less,
    AtMost,
    Greater,
    AtLeast,
    Concat,
    Plus,
    Minus,
    Times,
    Divide,
    Remainder,
}

/// Expressions in order.
pub type Exprs = Sequence<Expr>;

/// The members of a struct constructor in order, repeated names included.
pub type Members = Sequence<Member>;

/// The steps of a path in order.
pub type PathSteps = Sequence<PathStep>;

/// An expression. One in round brackets is the expression inside.
#[cycle(expr)]
#[derive(Drop)]
pub enum Expr {
    Value(Value),
    Missing,
    /// A `?` by its number, counted from 0 in text order.
    Parameter(u32),
    Path(Path),
    Negate(Boxed<Expr>),
    Not(Boxed<Expr>),
    List(Exprs),
    Struct(Members),
    Binary {
        op: Operator,
        left: Boxed<Expr>,
        right: Boxed<Expr>,
    },
    IsIn {
        value: Boxed<Expr>,
        list: Boxed<Expr>,
    },
    Like {
        value: Boxed<Expr>,
        pattern: Boxed<Expr>,
    },
    Between {
        value: Boxed<Expr>,
        low: Boxed<Expr>,
        high: Boxed<Expr>,
    },
    IsNull(Boxed<Expr>),
    IsMissing(Boxed<Expr>),
    Coalesce(Exprs),
    Size(Boxed<Expr>),
    CharLength(Boxed<Expr>),
    /// `COUNT(*)`.
    CountAll,
    Count(Boxed<Expr>),
    Sum(Boxed<Expr>),
    Min(Boxed<Expr>),
    Max(Boxed<Expr>),
}

/// A member of a struct constructor.
#[cycle(expr)]
#[derive(Drop)]
pub struct Member {
    pub name: Text,
    pub value: Expr,
}

/// A name as it is written, and the steps from it.
#[cycle(expr)]
#[derive(Drop)]
pub struct Path {
    pub first: Text,
    pub steps: PathSteps,
}

/// A step of a path: `.name`, or an expression in square brackets.
#[cycle(expr)]
#[derive(Drop)]
pub enum PathStep {
    Field(Text),
    Index(Expr),
}
