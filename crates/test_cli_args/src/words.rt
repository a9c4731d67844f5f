//! A line of words, and what it asks for.
use cli_args::{Command, WordsFault, command_in};
use std::alloc::Global;

/// The words of a line, apart at each space.
fn words_of(alloc: Global, line: &str) -> Option<Vec<String>> {
    let mut words = Vec::new(alloc);
    for word in line.split(' ') {
        words.push(String::from_str(alloc, word).ok()?).ok()?;
    }
    Some(words)
}

/// What a line asks for.
pub fn asked(alloc: Global, line: &str) -> Option<Result<Command, WordsFault>> {
    let words = words_of(alloc, line)?;
    Some(command_in(alloc, words.as_slice()))
}
