ghost use Rattle.journal_text.specs.Laws.{JournalsTell};
ghost use Rattle.journal_text.specs.OneLine.{WrittenOnOneLine};

use block_form::values_tell_blocks;
use ion_text::written_is_read;

/// A law for callers: no line feed stands in the text of a value, so a line feed behind a text
/// tells that the whole of it was written.
pub fn written_on_one_line()
    ensures { WrittenOnOneLine }
{}

/// A law for callers: the bytes of a journal tell its blocks and its rest, or its first damage, and nothing else.
pub fn journals_tell()
    ensures { JournalsTell }
{
    written_is_read();
    values_tell_blocks();
}
