//! Tests of permissions: what statements demand, and what sets of rules are read as. tests/commands.py has rows of what
//! rules deny, and of values that are no sets of rules.
#![tactic(auto)]

#[cfg(test)]
mod demanded;
#[cfg(test)]
mod reading;
#[cfg(test)]
mod rows;
#[cfg(test)]
mod sets;
