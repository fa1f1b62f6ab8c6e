//! Laws of an import.
ghost use Rattle.study_import.specs.Laws.{IsIsolated, AreAlike, AreAccepted, AreTaken, AreRead, AreScriptsRead, AreListed, AreWhole};
ghost use Rattle.study_import.specs.Written.{AreReadBack, AreFilesReadBack};
ghost use Rattle.study_import.specs.ReadBack.{AreWideReadBack};

/// If the last line of a text that is neither blank nor a remark is one of moves, its blocks are the same whatever file follows it that begins with a
/// tag; and the text written for that file depends on the text before it only by numbers of games and of lines.
pub fn blocks_are_isolated()
    ensures { IsIsolated }
{}

/// A game leads to the same studies wherever it appears: number and line change only its remarks.
pub fn studies_are_alike()
    ensures { AreAlike }
{}

/// The `insert` lines of a block are accepted by a bench, apart from tables and memory, make the tree that was read, and spell its moves so that each
/// reads back as itself.
pub fn moves_are_accepted()
    ensures { AreAccepted }
{}

/// A study accepts the text of each `tag` line of a block, whatever the value of the game's tag.
pub fn tags_are_taken()
    ensures { AreTaken }
{}

/// The block of a game, as its bytes are, is a script that no rule refuses: each line has at most 1,024 bytes and reads as a command that is
/// accepted, or as no command, apart from tables and memory. It is cut into one part for each study that the game leads to, its own or those of its
/// tails. Whatever document is before a part, its study is the document at the line that requests the PGN, the part's last: its start, its stipulation,
/// its six tags and its tree. Where a game or a tail is left out nothing is changed.
pub fn blocks_are_read()
    ensures { AreRead }
{}

/// The same for a whole script: no rule refuses a line of it, and after it the document is the last study that a game led to.
pub fn scripts_are_read()
    ensures { AreScriptsRead }
{}

/// A game with at most four men is left out for a fault of its own: the importer never loses a place in its tree, and want of memory is not a fault of a
/// game.
pub fn faults_are_listed()
    ensures { AreListed }
{}

/// A game is read to its end: as many steps as it has bytes are enough for its header and for its moves.
pub fn games_are_read_whole()
    ensures { AreWhole }
{}

/// The PGN written for a study reads back as that study: its start, its stipulation, its tags and its tree, in order.
pub fn studies_are_read_back()
    ensures { AreReadBack }
{}

/// A file of such studies, one after the other, is cut into their texts again, in order, and each reads back as its study.
pub fn files_are_read_back()
    ensures { AreFilesReadBack }
{}

/// The lines `#> ` of a game with more than four men, or with a right to castle, spell its study: read one after another, by the rules for any number of
/// men, they give its start, its stipulation, its tags and its moves, in order.
pub fn wide_studies_are_read_back()
    ensures { AreWideReadBack }
{}
