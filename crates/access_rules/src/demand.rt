//! Demands, and what comes of judging them.
use crate::rule::Action;
use containers::{Sequence, Text};

/// An action on the table of that name.
#[derive(Drop)]
pub struct Demand {
    pub action: Action,
    pub table: Text,
}

/// Demands in order.
pub type Demands = Sequence<Demand>;

/// Whether demands are allowed, or else the first one that is denied. The rule is the name of the deny
/// rule that meets it, and None if it is denied by no rule.
#[derive(Drop)]
pub enum Verdict {
    Allowed,
    Denied { demand: Demand, rule: Option<Text> },
}
