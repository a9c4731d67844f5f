//! The law.
ghost use Rattle.laws_passes.specs.Laws.{StatementsKeepOpen};

/// A statement leaves its transaction fit for a commit with its pass.
///
/// It is so whatever the statement returns.
pub fn statements_keep_open()
    ensures { StatementsKeepOpen }
{}
