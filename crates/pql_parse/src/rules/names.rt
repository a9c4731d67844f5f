//! The first source that has each name.
ghost use Rattle.std.specs.Prelude.{◌≡◌, IfOk};
ghost use Rattle.pql_parse.specs.Ruled.{HasFirsts, found, has_name, has_variable, is_below};

use containers::OutOfMemory;
use pql_model::Source;
use std::alloc::Global;
use std::collections::BTreeMap;

/// The number of the first source that has a name, counted from 0.
pub type Firsts<'a> = BTreeMap<&'a str, usize>;

/// The sources by their variables and BY names.
pub fn first_known(alloc: Global, sources: &[Source]) -> Result<Firsts<'_>, OutOfMemory>
    ensures { IfOk result (λ firsts. HasFirsts has_name firsts sources.now) }
{
    let mut firsts = BTreeMap::new(alloc);
    let mut left = sources.len();
    'sources: while left > 0 {
        left -= 1;
        let source = &sources[left];
        firsts.insert(source.variable.as_str(), left)?;
        if let Some(name) = &source.id_name {
            firsts.insert(name.as_str(), left)?;
        }
    }
    Ok(firsts)
}

/// The sources by their variables alone.
pub fn first_variables(alloc: Global, sources: &[Source]) -> Result<Firsts<'_>, OutOfMemory>
    ensures { IfOk result (λ firsts. HasFirsts has_variable firsts sources.now) }
{
    let mut firsts = BTreeMap::new(alloc);
    let mut left = sources.len();
    'sources: while left > 0 {
        left -= 1;
        let source = &sources[left];
        firsts.insert(source.variable.as_str(), left)?;
    }
    Ok(firsts)
}

/// Whether one of the first `seen` sources has the name.
pub fn is_before(firsts: &Firsts<'_>, name: &str, seen: usize) -> bool
    ensures { result ≡ is_below seen (found name.now firsts.now) }
{
    match firsts.get(name) {
        Some(first) => *first < seen,
        None => false,
    }
}
