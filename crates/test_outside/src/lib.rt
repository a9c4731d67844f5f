//! Tests of the outside: its forms in memory, and its adapters over streams, files and clocks.
#![tactic(auto)]

#[cfg(test)]
mod calls;
#[cfg(test)]
mod clocks;
#[cfg(test)]
mod drives;
#[cfg(test)]
mod files;
#[cfg(test)]
mod memory;
#[cfg(test)]
mod streams;
