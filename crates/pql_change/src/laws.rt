ghost use Rattle.pql_change.specs.OneRoot.{OneDocumentIsApplied};

/// Where the paths of a change all begin at one source of a row, the row and the change leave that
/// source's document alone, as `apply` leaves it.
pub fn one_document_is_applied()
    ensures { OneDocumentIsApplied }
{}
