//! Laws over the definitions, stated by functions that do nothing.
ghost use Rattle.study_html.specs.Escape.{WordsAreClean, LettersAreClean};

/// The HTML of words has none of `<`, `>` and the quotation marks, `&` only at the beginning of an entity, and only bytes of
/// printable ASCII, whatever the words are.
pub fn words_are_clean()
    ensures { WordsAreClean }
{}

/// The same is true of words in their own letters, but for the bytes of letters outside ASCII.
pub fn letters_are_clean()
    ensures { LettersAreClean }
{}
