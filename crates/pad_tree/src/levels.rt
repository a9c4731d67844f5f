//! One level of a padded hash tree that grows.
ghost use Rattle.std.specs.Prelude.{◌≡◌, ◌+◌, ◌-◌, ◌*◌, ◌<◌, ◌≤◌, ◌^◌, min, [], ◌∷◌, ◌++◌, length, take, slice_index_or, IfOk, OnOk};
ghost use Rattle.hash_model.specs.PairHash.{dot32};
ghost use Rattle.pad_tree.specs.Growing.{after_steps, level_over};

use containers::OutOfMemory;
use pair_hash::dot_full;
use ql_types::{Hash32, Steps};
use std::alloc::Global;
use std::marker::Model;

/// The nodes of one level that have leaves below them, in order, and the hash at each other place. Contracts see them
/// as `nodes` and `pad`, and beside them `spare`, the number of nodes for which there is room already.
#[derive(Drop)]
pub(crate) struct Level {
    nodes: Vec<Hash32>,
    pad: Hash32,
    spare: usize,
}

impl Model for Level {
    ghost use Rattle.std.specs.Prelude.{◌+◌, ◌≤◌};
    ghost use Rattle.std.specs.Vec.{vec_len, vec_capacity};
    ghost use Rattle.pad_tree.specs.Growing.{KeptLevel};

    ghost Value = { KeptLevel };

    ghost view = { λ l. record { nodes = l.nodes.items; pad = l.pad; spare = l.spare } };

    ghost invariant = { λ l. vec_len l.nodes + l.spare ≤ vec_capacity l.nodes };
}

/// Counts one step.
fn tick(steps: &mut Steps)
    ensures { steps.new.taken ≡ min (steps.old.taken + 1) (2 ^ 64 - 1) }
{
    steps.taken = steps.taken.saturating_add(1);
}

/// The hash of two hashes, counted as one step.
fn counted_dot(a: &Hash32, b: &Hash32, steps: &mut Steps) -> Hash32
    ensures hash { result ≡ dot32 a.now b.now }
    ensures counted { steps.new.taken ≡ min (steps.old.taken + 1) (2 ^ 64 - 1) }
{
    tick(steps);
    dot_full(a, b)
}

impl Level {
    /// A level of these nodes. It takes no memory.
    pub(crate) fn new(nodes: Vec<Hash32>, pad: Hash32) -> Level
        ensures nodes { result.nodes ≡ nodes.items }
        ensures pad { result.pad ≡ pad }
    {
        Level {
            nodes,
            pad,
            spare: 0,
        }
    }

    /// The level above.
    pub(crate) fn above(&self, alloc: Global, steps: &mut Steps) -> Result<Level, OutOfMemory>
        ensures nodes { IfOk result (λ above. above.nodes ≡ level_over self.now.pad self.now.nodes) }
        ensures pad { IfOk result (λ above. above.pad ≡ dot32 self.now.pad self.now.pad) }
        ensures counted { IfOk result (λ above. steps.new.taken ≡ after_steps (length above.nodes) steps.old.taken) }
    {
        let nodes = self.nodes_above(alloc, steps)?;
        Ok(Level::new(nodes, dot_full(&self.pad, &self.pad)))
    }

    /// How many nodes the level above has: one over each two nodes, and none over a root.
    #[tactic(auto, using(crate::proofs::AtOnce::count_over, crate::proofs::AtOnce::count_none))]
    fn count_above(&self) -> usize
        ensures count { result ≡ length (level_over self.now.pad self.now.nodes) }
        ensures small { 2 * result ≤ 2 ^ 64 }
    {
        if self.nodes.len() > 1 {
            self.nodes.len().div_ceil(2)
        } else {
            0
        }
    }

    /// The nodes of the level above, each counted as one step.
    fn nodes_above(&self, alloc: Global, steps: &mut Steps) -> Result<Vec<Hash32>, OutOfMemory>
        ensures nodes { IfOk result (λ above. above.items ≡ level_over self.now.pad self.now.nodes) }
        ensures counted { IfOk result (λ above. steps.new.taken ≡ after_steps (length above.items) steps.old.taken) }
    {
        let count = self.count_above();
        let mut above = Vec::with_capacity(alloc, count)?;
        'places: for place in 0..count {
            above.push(self.over(place, steps))?;
        }
        Ok(above)
    }

    /// How many nodes there are.
    pub(crate) fn len(&self) -> usize
        ensures { result ≡ length self.now.nodes }
    {
        self.nodes.len()
    }

    /// The hash at a place counted from 0: a node, or the pad past the last one.
    pub(crate) fn at(&self, place: usize) -> Hash32
        ensures { result ≡ slice_index_or self.now.nodes place self.now.pad }
    {
        self.nodes.get(place).copied().unwrap_or(self.pad)
    }

    /// The node of the level above at this place, counted as one step.
    pub(crate) fn over(&self, place: usize, steps: &mut Steps) -> Hash32
        requires { 2 * place + 1 < 2 ^ 64 }
        ensures node { result ≡ dot32 (slice_index_or self.now.nodes (2 * place) self.now.pad)
            (slice_index_or self.now.nodes (2 * place + 1) self.now.pad) }
        ensures counted { steps.new.taken ≡ min (steps.old.taken + 1) (2 ^ 64 - 1) }
    {
        counted_dot(&self.at(2 * place), &self.at(2 * place + 1), steps)
    }

    /// Puts a node after the first `kept`, in the place of any others. It takes no memory.
    pub(crate) fn set_last(&mut self, kept: usize, node: Hash32)
        requires { 1 ≤ self.old.spare }
        ensures nodes { self.new.nodes ≡ take kept self.old.nodes ++ node ∷ [] }
        ensures pad { self.new.pad ≡ self.old.pad }
    {
        self.nodes.truncate(kept);
        self.nodes.push(node).unwrap();
        self.spare -= 1;
    }

    /// Makes room for one node more, where there is none.
    pub(crate) fn make_room(&mut self) -> Result<(), OutOfMemory>
        ensures nodes { self.new.nodes ≡ self.old.nodes }
        ensures pad { self.new.pad ≡ self.old.pad }
        ensures room { OnOk result (1 ≤ self.new.spare) }
    {
        if self.spare == 0 {
            self.nodes.reserve(1)?;
            self.spare = 1;
        }
        Ok(())
    }
}
