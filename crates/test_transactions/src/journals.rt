//! Versions of journals that are told as blocks, with ` / ` between these.
ghost use Rattle.std.specs.Prelude.{⊤};

use crate::blocks::{Page, page_of};
use containers::Boxed;
use std::alloc::Global;
use std::marker::Model;
use versions::Versions;

/// The version that a list of blocks stands for. Clauses see nothing of it, and it is dropped by a call, which keeps
/// the proofs of the tables small.
#[derive(Drop)]
pub(crate) struct Version {
    held: Boxed<Versions>,
}

impl Model for Version {
    ghost Value = { ⊤ };

    ghost view = { λ _. tt };
}

impl Version {
    fn boxed(alloc: Global, versions: Versions) -> Option<Version> {
        match Boxed::new(alloc, versions) {
            Ok(held) => Some(Version { held }),
            Err(_) => None,
        }
    }

    /// That of no block.
    pub(crate) fn empty(alloc: Global) -> Option<Version> {
        Version::boxed(alloc, Versions::empty(alloc))
    }

    pub(crate) fn get(&self) -> &Versions {
        self.held.get()
    }

    pub(crate) fn share(&self, alloc: Global) -> Option<Version> {
        match self.get().share() {
            Ok(versions) => Version::boxed(alloc, versions),
            Err(_) => None,
        }
    }

    /// That of a block more.
    pub(crate) fn after(&self, alloc: Global, page: &Page) -> Option<Version> {
        match self.get().after(page.block.get()) {
            Ok(versions) => Version::boxed(alloc, versions),
            Err(_) => None,
        }
    }
}

/// Goes on to the version behind the block of these steps.
fn go_on(alloc: Global, version: &mut Version, steps: &str) -> Option<()> {
    let page = page_of(alloc, steps)?;
    *version = version.after(alloc, &page)?;
    Some(())
}

/// The version with the blocks that are told behind it.
pub(crate) fn continued(alloc: Global, begun: &Version, told: &str) -> Option<Version> {
    let mut version = begun.share(alloc)?;
    for steps in told.split(" / ") {
        go_on(alloc, &mut version, steps)?;
    }
    Some(version)
}

/// The version of the journal that is told. `none` is the empty one.
pub(crate) fn version_of(alloc: Global, told: &str) -> Option<Version> {
    let empty = Version::empty(alloc)?;
    if told == "none" {
        return Some(empty);
    }
    continued(alloc, &empty, told)
}
