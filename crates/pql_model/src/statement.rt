use crate::expr::{Expr, Path};
use containers::{Sequence, Text};

/// A statement of the profile of PartiQL. The `from` of an UPDATE or a DELETE has one source.
#[derive(Drop)]
pub enum Statement {
    Select {
        select: Select,
        from: FromClause,
    },
    Insert {
        table: Text,
        value: Expr,
    },
    Update {
        from: FromClause,
        change: Change,
    },
    From {
        from: FromClause,
        change: Change,
    },
    Delete {
        from: FromClause,
    },
    Create {
        table: Text,
    },
    Index {
        table: Text,
        field: Text,
    },
    Drop {
        table: Text,
    },
    Redact {
        address: Expr,
        table: Expr,
        document: Expr,
    },
}

/// The items of a SELECT in order.
pub type SelectItems = Sequence<SelectItem>;

/// What a SELECT answers of each row: `*`, one value, or a struct of items.
#[derive(Drop)]
pub enum Select {
    Star,
    Value(Expr),
    Items(SelectItems),
}

/// An item of a SELECT, with its AS name.
#[derive(Drop)]
pub struct SelectItem {
    pub value: Expr,
    pub name: Option<Text>,
}

/// The sources of a FROM in order.
pub type Sources = Sequence<Source>;

/// The sources of rows, and the WHERE behind them.
#[derive(Drop)]
pub struct FromClause {
    pub sources: Sources,
    pub filter: Option<Expr>,
}

/// A source of a FROM. The variable is the AS name, or else the table's name as written or the last
/// name of the path. `id_name` is the BY name, and `on` the condition of a JOIN.
#[derive(Drop)]
pub struct Source {
    pub from: SourceKind,
    pub variable: Text,
    pub id_name: Option<Text>,
    pub on: Option<Expr>,
}

/// Where the rows of a source come from. A table's name stands as it is written, the prefix of a
/// committed view included.
#[derive(Drop)]
pub enum SourceKind {
    Table {
        name: Text,
    },
    History {
        table: Text,
        start: Option<Expr>,
        end: Option<Expr>,
    },
    Path(Path),
}

/// The settings of a SET in order.
pub type Settings = Sequence<Setting>;

/// What a writing statement does to the documents of its rows.
#[derive(Drop)]
pub enum Change {
    Set(Settings),
    Insert {
        target: Path,
        value: Expr,
        at: Option<Expr>,
    },
    Remove {
        target: Path,
    },
}

/// One `path = value` of a SET.
#[derive(Drop)]
pub struct Setting {
    pub target: Path,
    pub value: Expr,
}
