//! One transaction, kept in memory.
ghost use Rattle.std.specs.Prelude.{◌≡◌, ◌+◌, ◌<◌, ◌^◌, false, map, IfOk, OnOk, OnErr};
ghost use Rattle.ql_types.specs.Ids.{raw_id};
ghost use Rattle.ledger_model.specs.Run.{reserved, start, table_now, tables_now};
ghost use Rattle.txn_core.specs.Effects.{effect_of, finished_of};
ghost use Rattle.txn_core.specs.Opened.{Adds, asked};
ghost use Rattle.txn_core.specs.Stops.{Comes};
ghost use Rattle.txn_core.specs.Transactions.{found, found_unless, id_after};
ghost use Rattle.versions.specs.Held.{table_of};

use crate::effect::Effect;
use crate::limits::reserved;
use crate::progress::Progress;
use crate::stopped::ExecuteFault;
use crate::views::left_of;
use containers::Sequence;
use ion_values::{OutOfMemory, Text, Value, copy_values};
use ledger_model::{Answer, Drafts, Item, Refusal, Said, SaidList, SchemaList};
use ql_types::{IdMask, Place, TableId, TxId, id_raw};
use std::alloc::Global;
use std::marker::Model;
use versions::{Table, Versions, active_table, change_all, copy_tables};

/// The most tables and documents that a transaction makes.
const MOST_MADE: u32 = (1 << 24) - 1;

/// An open transaction: its number under the mask and its place in the script, the version that it stands on with the
/// number of its blocks, what its statements have done so far, and whether one of them was refused.
#[derive(Drop)]
pub struct Txn {
    pub(crate) mask: IdMask,
    pub(crate) number: u64,
    pub(crate) place: Place,
    pub(crate) base: Versions,
    pub(crate) since: u64,
    pub(crate) done: Progress,
    pub(crate) ended: bool,
}

impl Model for Txn {
    ghost use Rattle.txn_core.specs.Effects.{progress_of};
    ghost use Rattle.txn_core.specs.Opened.{Opened, opened_code};

    ghost Value = { Opened };

    ghost coded = { opened_code };

    ghost view = { λ t. record {
      begun = record { mask = t.mask.bits; number = t.number };
      place = t.place;
      base = t.base;
      since = t.since;
      done = progress_of t.done;
      ended = t.ended;
    } };
}

/// What a transaction becomes a block of: its place in the script, its number under the mask, what was said and
/// changed, and one revision for each document that was touched, with its final content, in order of first touch.
#[derive(Drop)]
pub struct Finished {
    pub mask: IdMask,
    pub number: u64,
    pub place: Place,
    pub said: SaidList,
    pub schema: SchemaList,
    pub drafts: Drafts,
}

/// The number that a transaction drew, and the mask of its ledger's ids.
#[derive(Clone, Copy)]
pub struct Drawn {
    pub mask: IdMask,
    pub number: u64,
}

/// The transaction of this number and place of the script, on this version of `since` blocks. It takes no memory.
pub fn start_txn(alloc: Global, base: Versions, since: u64, drawn: Drawn, place: Place) -> Txn
    ensures { result ≡ record {
      begun = record { mask = drawn.mask.bits; number = drawn.number };
      place = place;
      base = base;
      since = since;
      done = start;
      ended = false;
    } }
{
    let Drawn { mask, number } = drawn;
    Txn {
        mask,
        number,
        place,
        base,
        since,
        done: Progress::new(alloc),
        ended: false,
    }
}

impl Txn {
    /// The transaction's id.
    pub fn tx(&self) -> TxId
        ensures { result.raw ≡ raw_id self.now.begun.mask self.now.begun.number 0 }
    {
        TxId {
            raw: id_raw(self.mask, self.number, 0),
        }
    }

    /// On how many blocks it runs.
    pub fn since(&self) -> u64
        ensures { result ≡ self.now.since }
    {
        self.since
    }

    /// The transaction's place in the script.
    pub fn place(&self) -> Place
        ensures { result ≡ self.now.place }
    {
        self.place
    }

    /// The statements that were done, in order, with their answers.
    pub fn said(&self) -> &[Said]
        ensures { result.now ≡ self.now.done.said }
    {
        self.done.said.as_slice()
    }

    /// What the statements that were done read, in order, repeats kept. It takes no memory.
    pub fn footprint(&self) -> &[Item]
        ensures { result.now ≡ self.now.done.footprint }
    {
        self.done.footprint.as_slice()
    }

    /// Whether a statement was refused.
    pub fn is_ended(&self) -> bool
        ensures { result ≡ self.now.ended }
    {
        self.ended
    }

    /// What the transaction becomes a block of.
    pub fn finish(self, alloc: Global) -> Result<Finished, OutOfMemory>
        ensures { IfOk result (λ f. f ≡ finished_of self) }
    {
        let Txn {
            mask,
            number,
            place,
            done,
            ..
        } = self;
        let Progress {
            said,
            schema,
            log,
            ..
        } = done;
        let drafts = left_of(alloc, log.into_vec())?;
        Ok(Finished {
            mask,
            number,
            place,
            said: Sequence::from_vec(said),
            schema: Sequence::from_vec(schema),
            drafts,
        })
    }

    /// The number of the next id after `more` further ones. `OutOfMemory` comes also if the transaction has made as
    /// many as it can.
    pub(crate) fn next_id(&self, more: u32) -> Result<u128, OutOfMemory>
        ensures id { IfOk result (λ raw. raw ≡ id_after self.now more) }
        ensures room { OnOk result (more + 1 < 2 ^ 24) }
    {
        let made = self.done.made.checked_add(more).ok_or(OutOfMemory)?;
        if made >= MOST_MADE {
            return Err(OutOfMemory);
        }
        Ok(id_raw(self.mask, self.number, made + 1))
    }

    /// The tables, the transaction's own changes counted.
    pub(crate) fn tables_now(&self, alloc: Global) -> Result<Vec<Table>, OutOfMemory>
        ensures { IfOk result (λ tables. map table_of tables.items ≡ tables_now self.now.base self.now.done) }
    {
        let mut tables = copy_tables(alloc, self.base.tables())?;
        change_all(alloc, &mut tables, self.done.schema.as_slice())?;
        Ok(tables)
    }

    /// The active table of this name, the transaction's own changes counted.
    fn table_now(&self, alloc: Global, name: &Text) -> Result<Option<TableId>, OutOfMemory>
        ensures { IfOk result (λ table. table ≡ table_now self.now.base self.now.done name.now) }
    {
        if self.done.schema.is_empty() {
            return Ok(self.base.table(name));
        }
        let tables = self.tables_now(alloc)?;
        Ok(active_table(tables.as_slice(), name.as_str()))
    }

    /// The table of this name, for a statement on it. It stops with `NoSuchTable` where no active one has the name.
    pub(crate) fn table_named(&self, alloc: Global, name: &Text) -> Result<TableId, ExecuteFault>
        ensures { Comes result (found name.now (table_now self.now.base self.now.done name.now)) }
    {
        match self.table_now(alloc, name)? {
            Some(table) => Ok(table),
            None => Err(ExecuteFault::Refused(Refusal::NoSuchTable {
                name: name.copy(alloc)?,
            })),
        }
    }

    /// The table of this name, for a statement that changes its schema. It stops with `ReservedName` where the name
    /// is the ledger's own, and with `NoSuchTable` where no active table has it.
    pub(crate) fn table_changed(&self, alloc: Global, name: &Text) -> Result<TableId, ExecuteFault>
        ensures { Comes result (found_unless (reserved name.now) name.now
            (table_now self.now.base self.now.done name.now)) }
    {
        if let Some(cause) = reserved(alloc, name)? {
            return Err(ExecuteFault::Refused(cause));
        }
        self.table_named(alloc, name)
    }

    /// Appends the statement with what it does. If memory runs out, the transaction is unchanged.
    #[tactic(auto, using(crate::proofs::Effects::adds_of, crate::proofs::Effects::same_opened))]
    pub(crate) fn add(
        &mut self,
        alloc: Global,
        text: &str,
        params: &[Value],
        effect: Effect,
    ) -> Result<(), OutOfMemory>
        ensures adds { OnOk result (Adds self.old (asked text.now params.now) (effect_of effect) self.new) }
        ensures same { OnErr result (self.new ≡ self.old) }
    {
        let Effect {
            rows,
            schema,
            log,
            made,
            footprint,
        } = effect;
        let said = Said {
            text: Text::from_text(alloc, text)?,
            params: copy_values(alloc, params)?,
            answer: Answer { rows },
        };
        self.done.add(
            said,
            schema.into_vec(),
            log.into_vec(),
            made,
            footprint.into_vec(),
        )?;
        Ok(())
    }
}
