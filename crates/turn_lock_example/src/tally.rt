//! What stands behind the turn: which numbers were drawn and given back, in order.
ghost use Rattle.std.specs.Prelude.{◌≡◌, ℕ, ◌<◌, [], ◌∷◌, ◌++◌, Some, IfOk, OnErr};
ghost use Rattle.turn_lock_example.specs.Marks.{run};
ghost use Rattle.turn_lock_example.specs.declared.tally.Mark.TheVariants.{Drawn, Back};

use containers::OutOfMemory;
use std::alloc::Global;
use turn_lock::Counted;

/// A number was drawn, or given back.
#[derive(Clone, Copy, Debug, PartialEq, Eq)]
pub enum Mark {
    Drawn(u64),
    Back(u64),
}

/// The marks so far, and the next number.
#[derive(Drop)]
pub struct Tally {
    next: u64,
    marks: Vec<Mark>,
    ghost runs: { run 0 marks.items ≡ Some next },
}

impl Tally {
    /// No number was drawn. It takes no memory.
    pub fn new(alloc: Global) -> Tally
        ensures { result.marks.items ≡ [] }
    {
        Tally {
            next: 0,
            marks: Vec::new(alloc),
        }
    }

    /// The marks so far.
    pub fn marks(&self) -> &[Mark]
        ensures { result.now ≡ self.now.marks.items }
    {
        self.marks.as_slice()
    }

    /// Draws the next number.
    pub fn draw(&mut self) -> Result<u64, OutOfMemory>
        ensures drawn { IfOk result (λ n. (n ≡ self.old.next)
            × (self.new.marks.items ≡ self.old.marks.items ++ Drawn n ∷ [])) }
        ensures refused { OnErr result (self.new.marks.items ≡ self.old.marks.items) }
    {
        let number = self.next;
        if number == u64::MAX {
            return Err(OutOfMemory);
        }
        self.marks.push(Mark::Drawn(number))?;
        self.next = number + 1;
        Ok(number)
    }

    /// Gives a number back that was drawn.
    pub fn give_back(&mut self, number: u64) -> Result<(), OutOfMemory>
        requires { number < self.old.next }
        ensures back { IfOk result (λ _. self.new.marks.items ≡ self.old.marks.items ++ Back number ∷ []) }
        ensures refused { OnErr result (self.new.marks.items ≡ self.old.marks.items) }
    {
        self.marks.push(Mark::Back(number))?;
        Ok(())
    }
}

impl Counted for Tally {
    type Opening = ();

    type Entry = Mark;

    ghost use Rattle.turn_lock_example.specs.Marks.{IsRun, opened_by, used_by};

    ghost opening = { λ _. tt };

    ghost entries = { λ s. s.marks.items };

    ghost is_right = { IsRun };

    ghost opens = { opened_by };

    ghost uses = { used_by };

    fn count(&self) -> u64 {
        self.marks.len() as u64
    }

    fn known(&self) {
        let _ = &self.marks;
    }
}
