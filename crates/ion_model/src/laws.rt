ghost use Rattle.ion_model.specs.Laws.{TextsAreUtf8};

/// A law for callers: what stands between quotes in a text that is UTF-8 gives a text that is UTF-8.
pub fn texts_are_utf8()
    ensures { TextsAreUtf8 }
{}
