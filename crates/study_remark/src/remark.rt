//! Remarks as values.

/// Where a stipulation is from.
#[derive(Clone, Copy, Debug, PartialEq, Eq)]
pub enum Source {
    /// The first comment, before the first move.
    Comment,
    StipulationTag,
    ResultTag,
    /// The result after the moves.
    Result,
    /// The caller, for a game that states none.
    Given,
}

/// What speaks against a stipulation.
#[derive(Clone, Copy, Debug, PartialEq, Eq)]
pub enum Doubt {
    /// The first comment has the form of a stipulation, and none that is read.
    CommentUnread,
    /// The tag Stipulation is neither read nor unknown.
    TagUnread,
    /// The tag Stipulation wants another result.
    TagDiffers,
    /// The tag Result is another result.
    ResultTagDiffers,
    /// The result after the moves is another one.
    ResultDiffers,
}

/// A tag whose text in the script differs from its original.
#[derive(Clone, Copy, Debug, PartialEq, Eq)]
pub enum Original {
    Event,
    Site,
    Date,
    Round,
    White,
    Black,
}

/// A game of a PGN file, and a place in it.
#[derive(Clone, Copy, Debug)]
pub struct Subject<'t> {
    /// Its number in the file, from 1.
    pub game: u32,
    /// The line of the place in the file, from 1: of the fault, or of the game's first line.
    pub line: u32,
    /// The column in bytes, from 1, if the place is within a line.
    pub column: Option<u32>,
    /// The tag White in the letters of the script, or empty.
    pub author: &'t [u8],
}

/// A remark of an import.
#[derive(Clone, Copy, Debug)]
pub enum Remark<'t> {
    /// A game without a block, and why: `left out: 7 men`, `NoSuchMove at Kb6`.
    LeftOut(Subject<'t>, &'t [u8]),
    /// A game whose block ends before this place, and what stands there: `7. b6`.
    NotRead(Subject<'t>, &'t [u8]),
    /// Above a block: where its stipulation is from.
    Stipulated(Subject<'t>, Source),
    Doubted(Doubt),
    /// What of the game its block does not have: `comments 9, NAGs 4`.
    NotTakenOver(&'t [u8]),
    /// The line and the column of a text after the result.
    BehindResult(u32, u32),
    /// The text of a tag before it was turned into letters of the script.
    Original(Original, &'t [u8]),
    /// The tag with this name has bytes that fit no UTF-8, and is read as Latin 1.
    Latin1(Original),
    /// The language of the letters in which a game's moves are given, if it is not English.
    Letters(&'t [u8]),
    /// The number of moves before a tail.
    Tail(u32),
    /// The last line: the numbers of games and of studies.
    Total(u32, u32),
}
