//! What PartiQL statements are made of, and the definitions of their tokens, their grammar and their
//! meaning, which the contracts of the crates above cite.
#![tactic(auto)]

mod counts;
mod expr;
mod fields;
mod ids;
mod laws;
mod mark;
mod names;
mod roots;
mod scope;
mod selector;
mod statement;
mod tables;
mod token;

pub use counts::parameters;
pub use expr::{Expr, Exprs, Member, Members, Operator, Path, PathStep, PathSteps};
pub use fields::{field_of, has_key, key_in};
pub use ids::id_text;
pub use laws::{answers_are_shallow, depth_is_bounded, parsed_is_shallow, tables_are_changed};
pub use mark::{Mark, Marks, Place, Role};
pub use names::{Resolved, last_name, resolve, resolve_source, root_at};
pub use roots::{Roots, has_root, roots_of};
pub use scope::{Bindings, Bound, Evaluated, Scope};
pub use selector::{Selector, Selectors};
pub use statement::{
    Change, FromClause, Select, SelectItem, SelectItems, Setting, Settings, Source, SourceKind,
    Sources, Statement,
};
pub use tables::{Answer, DocIds, Keys, Probe, Row, Rows, Tables, View};
pub use token::{Lexed, Located, Symbol, Token, Tokens};

/// Why a text is no statement.
#[derive(Clone, Copy, Debug, PartialEq, Eq)]
pub enum ParseKind {
    NotAToken,
    Unexpected,
    TextEnds,
    TooLong,
    TooDeep,
    TooWide,
    FloatRefused,
    IonLiteral,
    UnknownName,
    BadTarget,
    MixedAggregate,
}
