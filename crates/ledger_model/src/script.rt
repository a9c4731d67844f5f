use containers::{Sequence, Text};
use ion_values::Values;
use ql_types::Hash32;

/// A statement's text and the values of its parameters, in the order of their question marks.
#[derive(Drop)]
pub struct Request {
    pub text: Text,
    pub params: Values,
}

/// The statements of a transaction in order.
pub type Asked = Sequence<Request>;

/// What rules deny of a transaction: an action on a table that its statement of this number, counted from 1,
/// demands. The rule is None if no rule speaks of it.
#[derive(Drop)]
pub struct Denial {
    pub statement: u32,
    pub action: Text,
    pub table: Text,
    pub rule: Option<Text>,
}

/// One transaction of a script. It is tried again after a conflict at most `retries` times. A `digest` is sent
/// in place of the computed one. With `abort` it ends without a commit. If something of it is `denied`, it
/// never begins.
#[derive(Drop)]
pub struct Job {
    pub statements: Asked,
    pub retries: u32,
    pub digest: Option<Hash32>,
    pub abort: bool,
    pub denied: Option<Denial>,
}

/// The transactions of one session, which run one after another.
pub type Session = Sequence<Job>;

/// The sessions of a script.
pub type Script = Sequence<Session>;

/// Why values spell no script.
#[derive(Clone, Copy, Debug, PartialEq, Eq)]
pub enum ScriptKind {
    /// There are more than 1,024 sessions.
    TooManySessions,
    /// A session is no list.
    NotASession,
    /// A transaction is no struct.
    NotATransaction,
    /// A transaction has two fields of one name.
    RepeatedField,
    /// A transaction has a field that none has.
    UnknownField,
    /// A transaction has no statements.
    MissingField,
    /// The statements are no list of statements.
    NotAStatement,
    /// The retries are no int from 0 to 100.
    BadRetries,
    /// The digest is no blob of 32 bytes.
    BadDigest,
    /// The end is neither the symbol `commit` nor `abort`.
    BadEnd,
}

/// The first fault of a script: its session and its transaction, both counted from 1, and its kind. The
/// transaction is 0 where a session is at fault.
#[derive(Clone, Copy, Debug, PartialEq, Eq)]
pub struct ScriptFault {
    pub session: u32,
    pub transaction: u32,
    pub kind: ScriptKind,
}
