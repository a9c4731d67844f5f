//! Symbols: texts in the order of their ids.
ghost use Rattle.std.specs.Prelude.{◌≡◌, map, string_bytes, IfOk, OnOk};
ghost use Rattle.ion_binary_out.specs.BinaryText.{symbol_id, system_symbols, with_symbol};

use containers::OutOfMemory;
use indexmap::IndexSet;
use std::alloc::Global;
use std::marker::Model;

/// How many symbols every stream has.
pub const SYSTEM: usize = 9;

/// Texts in the order of their ids, the system's first. Contracts see them as their list.
#[derive(Drop)]
pub struct Symbols {
    texts: IndexSet<String>,
}

impl Model for Symbols {
    ghost use Rattle.std.specs.Prelude.{ℕ, List, map, string_bytes};

    ghost Value = { List (List ℕ) };

    ghost view = { λ s. map string_bytes s.texts.keys };
}

impl Symbols {
    /// The symbols of the system.
    pub fn new(alloc: Global) -> Result<Symbols, OutOfMemory>
        ensures { IfOk result (λ symbols. symbols ≡ system_symbols) }
    {
        let mut symbols = Symbols {
            texts: IndexSet::new(alloc),
        };
        symbols.add(alloc, "$ion")?;
        symbols.add(alloc, "$ion_1_0")?;
        symbols.add(alloc, "$ion_symbol_table")?;
        symbols.add(alloc, "name")?;
        symbols.add(alloc, "version")?;
        symbols.add(alloc, "imports")?;
        symbols.add(alloc, "symbols")?;
        symbols.add(alloc, "max_id")?;
        symbols.add(alloc, "$ion_shared_symbol_table")?;
        Ok(symbols)
    }

    /// Appends the text, unless it is one of them.
    pub fn add(&mut self, alloc: Global, text: &str) -> Result<(), OutOfMemory>
        ensures { OnOk result (self.new ≡ with_symbol self.old text.now) }
    {
        if self.texts.contains(text) {
            return Ok(());
        }
        let own = String::from_str(alloc, text)?;
        self.texts.insert(own)?;
        Ok(())
    }

    /// The text's id, or the id that it would be given if it were appended.
    pub fn id(&self, text: &str) -> u128
        ensures { result ≡ symbol_id self.now text.now }
    {
        match self.texts.get_index_of(text) {
            Some(index) => index as u128 + 1,
            None => self.texts.len() as u128 + 1,
        }
    }

    /// The texts, lent.
    pub fn as_slice(&self) -> &[String]
        ensures { map string_bytes result.now ≡ self.now }
    {
        self.texts.as_slice()
    }
}
