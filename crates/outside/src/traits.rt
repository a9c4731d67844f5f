//! The traits of the outside.
ghost use Rattle.std.specs.Prelude.{◌≡◌, ◌<◌, ℤ, List, Option, length, IfOk, IfSome, OnErr, IsErrOf};
ghost use Rattle.std.specs.Io.{ReadsAtMost, WritesAtMost};
ghost use Rattle.std.specs.Io.KnownBytes.{ReadConsumes, WriteAppends};
ghost use Rattle.outside.specs.Causes.{HasCause, is_failed};
ghost use Rattle.outside.specs.Clocks.{AddsAnswer};
ghost use Rattle.outside.specs.Store.{ReadsAt, AppendLeaves, CutLeaves, SyncLeaves};
ghost use Rattle.outside.specs.Told.{SourceTold, SinkTold, StoreTold};
ghost use Rattle.outside.specs.declared.traits.OutFault.TheVariants.{OutOfMemory};

use ql_types::Place;
use std::alloc::AllocError;
use std::sync::Wait;

/// Why a call of the outside did not succeed.
#[derive(Clone, Copy, Debug, PartialEq, Eq)]
pub enum OutFault {
    /// The outside failed. The object's count of faults rose in that call.
    Failed,
    /// There was no memory. The object is as before the call.
    OutOfMemory,
}

impl From<AllocError> for OutFault {
    ghost from_gives = { λ _ fault. fault ≡ OutOfMemory };

    fn from(_error: AllocError) -> OutFault {
        OutFault::OutOfMemory
    }
}

/// Where the input comes from.
pub trait Source {
    /// The bytes that are left, where the source tells them, and how often it has failed.
    ghost told: { Self → SourceTold };

    /// How often the source has failed.
    fn faults(&self) -> u64
        ensures { result ≡ (told self.now).faults };

    /// Reads into the front of `out`, and returns how many bytes it read. Zero for a piece that isn't empty
    /// is the end of the input. After a fault the rest of the input is unchanged, and if memory ran out
    /// `out` is too.
    fn read(&mut self, out: &mut [u8]) -> Result<usize, OutFault>
        ensures bound { ReadsAtMost result out.new }
        ensures bytes { ReadConsumes (told self.old).left (told self.new).left result out.new }
        ensures unchanged { OnErr result ((told self.new).left ≡ (told self.old).left) }
        ensures lent { IsErrOf result OutFault.OutOfMemory → out.new ≡ out.old }
        ensures cause { HasCause (told self.old).faults (told self.new).faults result };
}

/// Where the output goes.
pub trait Sink {
    /// The bytes that were written, where the sink tells them, and how often it has failed.
    ghost told: { Self → SinkTold };

    /// How often the sink has failed.
    fn faults(&self) -> u64
        ensures { result ≡ (told self.now).faults };

    /// Writes the front of `piece`, and answers how many bytes it took: at least one of a piece that is
    /// not empty. After a fault what was written is as before.
    fn write(&mut self, piece: &[u8]) -> Result<usize, OutFault>
        ensures bound { WritesAtMost result piece.now }
        ensures some { IfOk result (λ taken. 0 < length piece.now → 0 < taken) }
        ensures bytes { WriteAppends (told self.old).written (told self.new).written result piece.now }
        ensures unchanged { OnErr result ((told self.new).written ≡ (told self.old).written) }
        ensures cause { HasCause (told self.old).faults (told self.new).faults result };
}

/// Where the journal is kept: a row of bytes that grows at its end and can be cut there.
pub trait JournalStore {
    /// The content, where the store tells it: the bytes that it holds and what a stop of the machine may leave of
    /// them. Whether the last call by `&mut` returned `Failed`, which out of memory is not. How often the store has
    /// failed.
    ghost told: { Self → StoreTold };

    /// How often the store has failed.
    fn faults(&self) -> u64
        ensures { result ≡ (told self.now).faults };

    /// How many bytes the store holds. It changes no byte.
    fn size(&mut self) -> Result<u64, OutFault>
        ensures length { IfOk result (λ size. IfSome (told self.old).content (λ content. size ≡ length content.bytes)) }
        ensures content { (told self.new).content ≡ (told self.old).content }
        ensures last { (told self.new).last_failed ≡ is_failed result }
        ensures cause { HasCause (told self.old).faults (told self.new).faults result };

    /// Reads the bytes from `at` on into the front of `out`, and answers how many it gave: at least one where
    /// `at` is below the size and `out` is not empty. It changes no byte of the store, and after want of
    /// memory none of `out`.
    fn read_at(&mut self, at: u64, out: &mut [u8]) -> Result<usize, OutFault>
        ensures bound { ReadsAtMost result out.new }
        ensures given { IfOk result (λ count. IfSome (told self.old).content
            (λ content. ReadsAt content.bytes at out.new count)) }
        ensures lent { IsErrOf result OutFault.OutOfMemory → out.new ≡ out.old }
        ensures content { (told self.new).content ≡ (told self.old).content }
        ensures last { (told self.new).last_failed ≡ is_failed result }
        ensures cause { HasCause (told self.old).faults (told self.new).faults result };

    /// Appends a piece. After a failure a prefix of the piece stands after the old bytes, and if memory ran
    /// out the bytes are the old ones.
    fn append(&mut self, piece: &[u8]) -> Result<(), OutFault>
        ensures content { AppendLeaves result (told self.old).content (told self.new).content piece.now }
        ensures last { (told self.new).last_failed ≡ is_failed result }
        ensures cause { HasCause (told self.old).faults (told self.new).faults result };

    /// Keeps the first `size` bytes alone. A size above the present one changes no byte. After a failure the
    /// bytes are the old ones or the cut ones, and if memory ran out the old ones.
    fn cut(&mut self, size: u64) -> Result<(), OutFault>
        ensures content { CutLeaves result (told self.old).content (told self.new).content size }
        ensures last { (told self.new).last_failed ≡ is_failed result }
        ensures cause { HasCause (told self.old).faults (told self.new).faults result };

    /// Makes all bytes that are held survive a stop of the machine. It changes no byte.
    fn sync(&mut self) -> Result<(), OutFault>
        ensures content { SyncLeaves result (told self.old).content (told self.new).content }
        ensures last { (told self.new).last_failed ≡ is_failed result }
        ensures cause { HasCause (told self.old).faults (told self.new).faults result };
}

/// What tells the time.
pub trait Clock {
    /// The answers that the clock has given, where it tells them.
    ghost answers: { Self → Option (List ℤ) };

    /// The one answer that the clock always gives, where it has one.
    ghost always: { Self → Option ℤ };

    /// The time in milliseconds since 1970 in UTC. It never fails.
    fn now(&mut self) -> i64
        ensures told { AddsAnswer (answers self.old) (answers self.new) result }
        ensures one { IfSome (always self.old) (λ time. result ≡ time) }
        ensures kept { always self.new ≡ always self.old };
}

/// The step of a transaction that a worker is about to make.
#[derive(Clone, Copy, Debug, PartialEq, Eq)]
pub enum Step {
    /// It begins the transaction next.
    BeforeBegin,
    /// It executes the next statement.
    BeforeExecute,
    /// It commits the transaction next.
    BeforeCommit,
}

/// What a worker passes before each step of a transaction, so that a test can decide on the order of the
/// steps of several workers.
pub trait Gate {
    /// Lets the worker through, perhaps after a wait.
    fn at<R: Wait + Sync>(&self, rt: &R, place: Place, step: Step);
}
