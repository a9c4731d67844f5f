//! The tail of what a store holds.
ghost use Rattle.std.specs.Prelude.{◌≡◌, ◌<◌, ◌≤◌, ◌^◌, ℕ, IfOk, OnOk, IfErr};
ghost use Rattle.ql_types.specs.Ids.{transaction_in};
ghost use Rattle.outside.specs.Told.{held};
ghost use Rattle.laws_history.specs.Standings.{IsStanding};
ghost use Rattle.laws_history.specs.Records.{greatest, mask_of};
ghost use Rattle.journal_reader.specs.Loads.{IsLoaded, IsCause};
ghost use Rattle.ledger_core.specs.Images.{ReloadGives};
ghost use Rattle.ledger_core.specs.Known.{IsKnown, standing_of};

use crate::tail::Tail;
use ion_values::OutOfMemory;
use journal_keeper::Keeper;
use journal_reader::{Chain, Journal, LoadCause};
use ledger_model::Block;
use outside::JournalStore;
use ql_types::{IdMask, id_parts};
use std::alloc::Global;
use std::thread::Threads;
use versions::Versions;

/// Why no journal was loaded, with the store and the clock that were given.
#[derive(Drop)]
pub struct LoadFault<S, C> {
    pub cause: LoadCause,
    pub store: S,
    pub clock: C,
}

/// The runtime, and how many of its threads read the lines of a journal.
#[derive(Drop)]
pub struct Loaders<'a, R> {
    pub rt: &'a R,
    pub workers: u32,
}

/// What a tail is made of.
#[derive(Drop)]
struct Loaded {
    mask: IdMask,
    last: u64,
    blocks: Chain,
    version: Versions,
    size: u64,
    marked: bool,
}

impl<S: JournalStore, C> Tail<S, C> {
    /// Reads the store to its end and returns the tail of its journal. A rest that is no whole line is left in place
    /// and marked to be cut. The mask is what the first block's strand shows, or the given one if there is no block.
    /// It returns `Damaged` at the journal's first damage, and `StoreFault` only if the store failed.
    pub fn reload(
        alloc: Global,
        store: S,
        clock: C,
        mask: IdMask,
    ) -> Result<Tail<S, C>, LoadFault<S, C>>
        // the tail
        ensures journal { IfOk result (λ tail. IsLoaded (held (S.told store)) tail.standing.blocks tail.marked) }
        ensures standing { IfOk result (λ tail. IsStanding tail.standing) }
        ensures mask { IfOk result (λ tail. tail.standing.mask ≡ mask_of mask.bits tail.standing.blocks) }
        ensures last { IfOk result (λ tail. tail.standing.last ≡ greatest tail.standing.mask tail.standing.blocks) }
        // its store and its clock
        ensures store { IfOk result (λ tail. ((S.told tail.store).content ≡ (S.told store).content)
            × ((S.told tail.store).faults ≡ (S.told store).faults)) }
        ensures clock { IfOk result (λ tail. tail.clock ≡ clock) }
        ensures images { IfOk result (λ tail. ReloadGives S.told (S.told store) tail) }
        // why there is none, and what is given back
        ensures cause { IfErr result (λ fault. IsCause fault.cause (S.told store) (S.told fault.store)) }
        ensures returned { IfErr result (λ fault. ((S.told fault.store).content ≡ (S.told store).content)
            × ((S.told store).faults ≤ (S.told fault.store).faults)) }
        ensures same_clock { IfErr result (λ fault. fault.clock ≡ clock) }
    {
        let mut store = store;
        match load(alloc, &mut store, mask) {
            Ok(loaded) => Ok(tail_of(store, clock, loaded)),
            Err(cause) => Err(LoadFault {
                cause,
                store,
                clock,
            }),
        }
    }

    /// Reads the store to its end and returns the tail of its journal, as `reload` does. Each line is read
    /// by itself, by as many threads as `crew` says where they can be made.
    pub fn reload_by<R: Threads + Sync>(
        crew: &Loaders<'_, R>,
        alloc: Global,
        store: S,
        clock: C,
        mask: IdMask,
    ) -> Result<Tail<S, C>, LoadFault<S, C>>
        // the tail
        ensures journal { IfOk result (λ tail. IsLoaded (held (S.told store)) tail.standing.blocks tail.marked) }
        ensures standing { IfOk result (λ tail. IsStanding tail.standing) }
        ensures mask { IfOk result (λ tail. tail.standing.mask ≡ mask_of mask.bits tail.standing.blocks) }
        ensures last { IfOk result (λ tail. tail.standing.last ≡ greatest tail.standing.mask tail.standing.blocks) }
        // its store and its clock
        ensures store { IfOk result (λ tail. ((S.told tail.store).content ≡ (S.told store).content)
            × ((S.told tail.store).faults ≡ (S.told store).faults)) }
        ensures clock { IfOk result (λ tail. tail.clock ≡ clock) }
        ensures images { IfOk result (λ tail. ReloadGives S.told (S.told store) tail) }
        // why there is none, and what is given back
        ensures cause { IfErr result (λ fault. IsCause fault.cause (S.told store) (S.told fault.store)) }
        ensures returned { IfErr result (λ fault. ((S.told fault.store).content ≡ (S.told store).content)
            × ((S.told store).faults ≤ (S.told fault.store).faults)) }
        ensures same_clock { IfErr result (λ fault. fault.clock ≡ clock) }
    {
        let mut store = store;
        match load_by(crew, alloc, &mut store, mask) {
            Ok(loaded) => Ok(tail_of(store, clock, loaded)),
            Err(cause) => Err(LoadFault {
                cause,
                store,
                clock,
            }),
        }
    }
}

/// The tail of what was loaded from the store.
fn tail_of<S: JournalStore, C>(store: S, clock: C, loaded: Loaded) -> Tail<S, C>
    requires read { IsLoaded (held (S.told store)) loaded.blocks.list loaded.marked }
    requires known { (given : ℕ) × IsKnown given loaded }
    ensures { result ≡ record { store = store; clock = clock; standing = standing_of loaded; marked = loaded.marked } }
{
    let Loaded {
        mask,
        last,
        blocks,
        version,
        size,
        marked,
    } = loaded;
    Tail {
        keeper: Keeper {
            store,
            size,
            marked,
        },
        clock,
        mask,
        last,
        blocks,
        version,
    }
}

/// What the tail of the store's journal is made of.
fn load<S: JournalStore>(alloc: Global, store: &mut S, mask: IdMask) -> Result<Loaded, LoadCause>
    ensures journal { IfOk result (λ loaded. IsLoaded (held (S.told store.old)) loaded.blocks.list loaded.marked) }
    ensures facts { IfOk result (λ loaded. IsKnown mask.bits loaded) }
    ensures content { (S.told store.new).content ≡ (S.told store.old).content }
    ensures later { (S.told store.old).faults ≤ (S.told store.new).faults }
    ensures fine { OnOk result ((S.told store.new).faults ≡ (S.told store.old).faults) }
    ensures cause { IfErr result (λ cause. IsCause cause (S.told store.old) (S.told store.new)) }
{
    let journal = Journal::read(alloc, store)?;
    Ok(loaded_of(alloc, journal, mask)?)
}

/// What the tail of the store's journal is made of. The lines are read by several threads.
fn load_by<S: JournalStore, R: Threads + Sync>(
    crew: &Loaders<'_, R>,
    alloc: Global,
    store: &mut S,
    mask: IdMask,
) -> Result<Loaded, LoadCause>
    ensures journal { IfOk result (λ loaded. IsLoaded (held (S.told store.old)) loaded.blocks.list loaded.marked) }
    ensures facts { IfOk result (λ loaded. IsKnown mask.bits loaded) }
    ensures content { (S.told store.new).content ≡ (S.told store.old).content }
    ensures later { (S.told store.old).faults ≤ (S.told store.new).faults }
    ensures fine { OnOk result ((S.told store.new).faults ≡ (S.told store.old).faults) }
    ensures cause { IfErr result (λ cause. IsCause cause (S.told store.old) (S.told store.new)) }
{
    let journal = Journal::read_by(crew.rt, crew.workers, alloc, store)?;
    Ok(loaded_of(alloc, journal, mask)?)
}

/// What the tail of a journal is made of.
fn loaded_of(alloc: Global, journal: Journal, given: IdMask) -> Result<Loaded, OutOfMemory>
    ensures blocks { IfOk result (λ loaded. loaded.blocks.list ≡ journal.blocks) }
    ensures marked { IfOk result (λ loaded. loaded.marked ≡ journal.rest) }
    ensures facts { IfOk result (λ loaded. IsKnown given.bits loaded) }
{
    let (blocks, size, marked) = journal.into_parts();
    let mask = mask_of(blocks.as_slice(), given);
    let last = greatest_number(mask, blocks.as_slice());
    let version = Versions::of(alloc, blocks.as_slice())?;
    Ok(Loaded {
        mask,
        last,
        blocks,
        version,
        size,
        marked,
    })
}

/// The mask that the first block's strand shows, or the given one if there is no block.
fn mask_of(blocks: &[Block], given: IdMask) -> IdMask
    ensures { result.bits ≡ mask_of given.bits blocks.now }
{
    match blocks {
        [first, ..] => IdMask {
            bits: first.header.address.strand.raw,
        },
        [] => given,
    }
}

/// The greatest number of a transaction of the blocks, or 0.
fn greatest_number(mask: IdMask, blocks: &[Block]) -> u64
    ensures { greatest mask.bits blocks.now < 2 ^ 64 → result ≡ greatest mask.bits blocks.now }
{
    let mut last = 0;
    'numbers: for block in blocks {
        let number = number_of(mask, block);
        if last < number {
            last = number;
        }
    }
    last
}

/// The number of the block's transaction.
fn number_of(mask: IdMask, block: &Block) -> u64
    ensures { transaction_in mask.bits block.now.header.tx.raw < 2 ^ 64
        → result ≡ transaction_in mask.bits block.now.header.tx.raw }
{
    match id_parts(mask, block.header.tx.raw) {
        Some((number, _)) => number,
        None => 0,
    }
}
