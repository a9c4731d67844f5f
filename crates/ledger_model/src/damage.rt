/// The check that a line of a journal fails first.
#[derive(Clone, Copy, Debug, PartialEq, Eq)]
pub enum Damage {
    /// The bytes aren't the line of a whole block.
    NotALine,
    /// The block's address isn't its line's place in the strand.
    WrongAddress,
    /// The transaction's id isn't one of the strand, or an earlier block has it.
    WrongId,
    /// The block is older than the one before.
    TimeFell,
    /// The previous hash isn't that of the block before.
    WrongPrevious,
    /// A hash isn't that of its contents.
    WrongHash,
    /// What the transaction did can't follow what the blocks before did.
    WrongState,
    /// All lines pass the other checks, and a hash stands for data that no block redacts, or for statements although
    /// neither the block nor a later one redacts anything.
    Unasked,
}
