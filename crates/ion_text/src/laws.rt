ghost use Rattle.ion_text.specs.Laws.{ReadIsWithin, WrittenIsRead};

/// A law for callers: the text of a value within its ranges is read as this value, and as nothing
/// else, by a reader that lets containers nest as deep as the value does.
pub fn written_is_read()
    ensures { WrittenIsRead }
{}

/// A law for callers: each value that is read is within its ranges.
pub fn read_is_within()
    ensures { ReadIsWithin }
{}
