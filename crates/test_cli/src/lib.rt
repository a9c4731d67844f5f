//! Runs on journals in memory at a gate, where workers wait for each other, and at a set clock. tests/commands.py has
//! commands that end well, or are refused, and tests/store_faults.py those whose calls fail.
#![tactic(auto)]

#[cfg(test)]
mod clocks;
#[cfg(test)]
mod commands;
#[cfg(test)]
mod gates;
