//! Permissions: what statements demand of the tables that they name, the rules that allow or deny demands, what they
//! deny of a transaction and of a script, and how named sets of rules are read from a value.
#![tactic(auto)]

mod demand;
mod fields;
mod judging;
mod reading;
mod requests;
mod rule;
mod scripts;
mod statements;

pub use demand::{Demand, Demands, Verdict};
pub use judging::judge;
pub use reading::read_rules;
pub use requests::denied;
pub use rule::{Action, Actions, Rule, Rules, RulesAnswer, Sessions};
pub use scripts::script_under;
pub use statements::demands;
