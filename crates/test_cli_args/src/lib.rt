//! Words of the command line, with what they ask for, and words that are refused.
#![tactic(auto)]

#[cfg(test)]
mod read;
#[cfg(test)]
mod refused;
#[cfg(test)]
mod words;
