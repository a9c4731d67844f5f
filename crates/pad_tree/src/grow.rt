//! A padded hash tree that is made of all its leaves at once, and grows a leaf at a time.
ghost use Rattle.std.specs.Prelude.{◌≡◌, ◌+◌, ◌<◌, ◌≤◌, ◌^◌, [], ◌∷◌, ◌++◌, length, IfOk, OnOk, OnErr};
ghost use Rattle.hash_model.specs.Tree.{height_of, root_of};
ghost use Rattle.pad_tree.specs.Growing.{after_steps, leaves_in, nodes_above, HasRoom, IsTower, SameNodes};
ghost use Rattle.pad_tree.specs.Paths.{path_of};

use crate::levels::Level;
use crate::paths::{Hashes, sibling};
use crate::{height, pad};
use containers::{OutOfMemory, Sequence};
use ql_types::{Hash, Hash32, Steps};
use std::alloc::Global;
use std::marker::Model;

/// How many levels a tree of 2^32 leaves has.
const LEVELS: usize = 33;

/// The padded tree over a list of at most 2^32 leaves, to which leaves are added at the end. Contracts see it as
/// `leaves`, and beside them `spare`, the number of leaves for which there is room already.
#[derive(Drop)]
pub struct Grow {
    levels: Vec<Level>,
    spare: usize,
}

impl Model for Grow {
    ghost use Rattle.std.specs.Prelude.{◌≤◌};
    ghost use Rattle.pad_tree.specs.Growing.{KeptTree, leaves_in, HasRoom, IsTower};

    ghost Value = { KeptTree };

    ghost view = { λ g. record { leaves = leaves_in g.levels.items; spare = g.spare } };

    ghost invariant = { λ g. IsTower g.levels.items × (1 ≤ g.spare → HasRoom g.levels.items) };
}

impl Grow {
    /// The tree over no leaves.
    pub fn new(alloc: Global) -> Result<Grow, OutOfMemory>
        ensures leaves { IfOk result (λ grow. grow.leaves ≡ []) }
        ensures spare { IfOk result (λ grow. grow.spare ≡ 0) }
    {
        let grow = Grow::of(alloc, Sequence::new(alloc), &mut Steps { taken: 0 })?;
        Ok(grow)
    }

    /// The tree over these leaves, made level by level. It hashes a pair for each node above the leaves, and beside
    /// them the pads of the levels, which aren't counted.
    #[tactic(auto, using(crate::proofs::AtOnce::few_nodes))]
    pub fn of(alloc: Global, leaves: Hashes, steps: &mut Steps) -> Result<Grow, OutOfMemory>
        requires { length leaves ≤ 2 ^ 32 }
        ensures leaves { IfOk result (λ grow. grow.leaves ≡ leaves) }
        ensures spare { IfOk result (λ grow. grow.spare ≡ 0) }
        ensures counted { OnOk result (steps.new.taken ≡ after_steps (nodes_above leaves) steps.old.taken) }
        ensures few_steps { OnOk result
            (steps.new.taken ≤ steps.old.taken + (length leaves + height_of (length leaves))) }
    {
        let levels = levels_over(alloc, leaves, steps)?;
        Ok(Grow { levels, spare: 0 })
    }

    /// Makes room for one leaf more, where there is none.
    #[tactic(auto, using(crate::proofs::Towers::tower_stays, crate::proofs::Towers::leaves_stay))]
    pub fn ready(&mut self) -> Result<(), OutOfMemory>
        ensures leaves { self.new.leaves ≡ self.old.leaves }
        ensures spare { OnOk result (1 ≤ self.new.spare) }
    {
        if self.spare == 0 {
            make_room(&mut self.levels)?;
            self.spare = 1;
        }
        Ok(())
    }

    /// Puts a leaf at the end. It takes no memory, and hashes a pair for each level above the leaves.
    #[tactic(auto, using(crate::proofs::Growth::few_steps))]
    pub fn put(&mut self, leaf: Hash32, steps: &mut Steps)
        requires room { 1 ≤ self.old.spare }
        requires few { length self.old.leaves < 2 ^ 32 }
        ensures leaves { self.new.leaves ≡ self.old.leaves ++ leaf ∷ [] }
        ensures counted { steps.new.taken ≡ after_steps (height_of (length self.new.leaves)) steps.old.taken }
        ensures few_steps { steps.new.taken ≤ steps.old.taken + (height_of (length self.new.leaves) + 2) }
    {
        self.spare = 0;
        put_leaf(&mut self.levels, leaf, steps);
    }

    /// Appends a leaf, after making room for it. If memory runs out, the leaves are unchanged.
    pub fn append(&mut self, leaf: Hash32) -> Result<(), OutOfMemory>
        requires { length self.old.leaves < 2 ^ 32 }
        ensures put { OnOk result (self.new.leaves ≡ self.old.leaves ++ leaf ∷ []) }
        ensures same { OnErr result (self.new.leaves ≡ self.old.leaves) }
    {
        self.ready()?;
        self.put(leaf, &mut Steps { taken: 0 });
        Ok(())
    }

    /// The root of the tree, or empty where there are no leaves. It takes no memory and hashes nothing.
    pub fn root(&self) -> Hash
        ensures { result ≡ root_of self.now.leaves }
    {
        root_in(&self.levels)
    }

    /// The path of the leaf at place `i`, counted from 0: the siblings on the way from the leaf up to the root, the
    /// lowest first. It hashes nothing.
    pub fn path(&self, alloc: Global, i: u64) -> Result<Hashes, OutOfMemory>
        requires { i < length self.now.leaves }
        ensures siblings { IfOk result (λ path. path ≡ path_of self.now.leaves i) }
        ensures long { IfOk result (λ path. length path ≡ height_of (length self.now.leaves)) }
    {
        let path = path_in(alloc, &self.levels, i)?;
        Ok(path)
    }
}

/// The levels of the tree over these leaves.
fn levels_over(alloc: Global, leaves: Hashes, steps: &mut Steps) -> Result<Vec<Level>, OutOfMemory>
    requires { length leaves ≤ 2 ^ 32 }
    ensures tower { IfOk result (λ levels. IsTower levels.items) }
    ensures leaves { IfOk result (λ levels. leaves_in levels.items ≡ leaves) }
    ensures counted { OnOk result (steps.new.taken ≡ after_steps (nodes_above leaves) steps.old.taken) }
{
    let mut levels = Vec::with_capacity(alloc, LEVELS)?;
    let mut level = Level::new(leaves.into_vec(), pad());
    'levels: while levels.len() < LEVELS - 1 {
        let next = level.above(alloc, steps)?;
        levels.push(level)?;
        level = next;
    }
    levels.push(level)?;
    Ok(levels)
}

/// Makes room for one node more in each level.
fn make_room(levels: &mut [Level]) -> Result<(), OutOfMemory>
    ensures same { SameNodes levels.new levels.old }
    ensures room { OnOk result (HasRoom levels.new) }
{
    'levels: for at in 0..levels.len() {
        levels[at].make_room()?;
    }
    Ok(())
}

/// Puts a leaf at the end, and makes the node above it in each level.
fn put_leaf(levels: &mut [Level], leaf: Hash32, steps: &mut Steps)
    requires tower { IsTower levels.old }
    requires room { HasRoom levels.old }
    requires few { length (leaves_in levels.old) < 2 ^ 32 }
    ensures tower { IsTower levels.new }
    ensures leaves { leaves_in levels.new ≡ leaves_in levels.old ++ leaf ∷ [] }
    ensures counted { steps.new.taken ≡ after_steps (height_of (length (leaves_in levels.new))) steps.old.taken }
{
    let count = levels[0].len();
    levels[0].set_last(count, leaf);
    let height = height(count as u64 + 1);
    'levels: for at in 0..height as usize {
        let place = (levels[at].len() - 1) / 2;
        let node = levels[at].over(place, steps);
        levels[at + 1].set_last(place, node);
    }
}

/// The root of the tree of these levels, or empty where there are no leaves.
fn root_in(levels: &[Level]) -> Hash
    requires { IsTower levels.now }
    ensures { result ≡ root_of (leaves_in levels.now) }
{
    let count = levels[0].len();
    if count == 0 {
        return Hash::Empty;
    }
    let top = height(count as u64) as usize;
    Hash::Full(levels[top].at(0))
}

/// The path of the leaf at place `i` in the tree of these levels.
fn path_in(alloc: Global, levels: &[Level], i: u64) -> Result<Hashes, OutOfMemory>
    requires tower { IsTower levels.now }
    requires within { i < length (leaves_in levels.now) }
    ensures siblings { IfOk result (λ path. path ≡ path_of (leaves_in levels.now) i) }
    ensures long { IfOk result (λ path. length path ≡ height_of (length (leaves_in levels.now))) }
{
    let mut siblings = Vec::new(alloc);
    let mut place = i as usize;
    let height = height(levels[0].len() as u64);
    'levels: for at in 0..height as usize {
        siblings.push(levels[at].at(sibling(place)))?;
        place /= 2;
    }
    Ok(Sequence::from_vec(siblings))
}
