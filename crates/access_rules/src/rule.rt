//! Rules, and the actions that they name.
ghost use Rattle.std.specs.Prelude.{◌≡◌};
ghost use Rattle.access_rules.specs.Actions as spec;

use containers::{Sequence, Text};
use ion_values::{Names, OutOfMemory};

/// What a statement does to a table, under the names of Amazon QLDB's permissions.
#[derive(Clone, Copy, Debug, PartialEq, Eq)]
pub enum Action {
    PartiQLSelect,
    PartiQLInsert,
    PartiQLUpdate,
    PartiQLDelete,
    PartiQLCreateTable,
    PartiQLCreateIndex,
    PartiQLDropTable,
    PartiQLHistoryFunction,
    PartiQLRedact,
}

impl Action {
    /// Each action once.
    pub const ALL: [Action; 9] = [
        Action::PartiQLSelect,
        Action::PartiQLInsert,
        Action::PartiQLUpdate,
        Action::PartiQLDelete,
        Action::PartiQLCreateTable,
        Action::PartiQLCreateIndex,
        Action::PartiQLDropTable,
        Action::PartiQLHistoryFunction,
        Action::PartiQLRedact,
    ];

    /// The name of the action, as rules and reports spell it.
    pub fn name(self) -> &'static str
        ensures { result.now ≡ spec.action_name self }
    {
        match self {
            Action::PartiQLSelect => "PartiQLSelect",
            Action::PartiQLInsert => "PartiQLInsert",
            Action::PartiQLUpdate => "PartiQLUpdate",
            Action::PartiQLDelete => "PartiQLDelete",
            Action::PartiQLCreateTable => "PartiQLCreateTable",
            Action::PartiQLCreateIndex => "PartiQLCreateIndex",
            Action::PartiQLDropTable => "PartiQLDropTable",
            Action::PartiQLHistoryFunction => "PartiQLHistoryFunction",
            Action::PartiQLRedact => "PartiQLRedact",
        }
    }
}

/// Actions in order.
pub type Actions = Sequence<Action>;

/// Numbers of sessions in order, counted from 1.
pub type Sessions = Sequence<u32>;

/// Rules in order.
pub type Rules = Sequence<Rule>;

/// A rule allows or denies actions on tables. The table `*` means every table, and `sessions` None
/// every session.
#[derive(Drop)]
pub struct Rule {
    pub rule: Text,
    pub allow: bool,
    pub actions: Actions,
    pub tables: Names,
    pub sessions: Option<Sessions>,
}

/// Why no set of rules is read.
#[derive(Clone, Copy, Debug, PartialEq, Eq)]
pub enum RulesAnswer {
    /// The value isn't a struct of sets of rules.
    BadRules,
    /// It is one, and has no set of that name.
    NoSuchRules,
    OutOfMemory,
}

impl From<OutOfMemory> for RulesAnswer {
    ghost use Rattle.std.specs.Prelude.{◌≡◌};
    ghost use Rattle.access_rules.specs.declared.rule.RulesAnswer.TheVariants as answer;

    ghost from_gives = { λ _ e. e ≡ answer.OutOfMemory };

    fn from(_error: OutOfMemory) -> RulesAnswer {
        RulesAnswer::OutOfMemory
    }
}
