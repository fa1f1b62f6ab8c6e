//! Counts of what the script omits.
ghost use Rattle.std.specs.Prelude.{◌≡◌, ◌++◌, ◌≤◌, true, map, OnOk};
ghost use Rattle.study_games.specs.Header.{tags_of, value_of};
ghost use Rattle.study_import.specs.Blocks.{separator, count_words, counts_words, count_seen, counted_words, counts_line, found_count, known_count};
ghost use Rattle.study_import.specs.Blocks.{known_names, other_tags};

use crate::places::at_most;
use std::alloc::{AllocError, Allocator};
use study_games::{count_tags, tag_value};
use study_reading::Notes;
use study_remark::{Remark, add_remark};
use study_text::{Piece, Text, add_pieces};

/// The number of tags with this name that are used: one at most.
fn found_count(game: &[u8], name: &[u8]) -> usize
    ensures value { result ≡ found_count (value_of name.now (tags_of game.now)) }
    ensures few { result ≤ 1 }
{
    match tag_value(game, name) {
        None => 0,
        Some(_) => 1,
    }
}

fn known_count(game: &[u8]) -> usize
    ensures { result ≡ known_count known_names (tags_of game.now) }
{
    found_count(game, b"Event")
        + (found_count(game, b"Site")
            + (found_count(game, b"Date")
                + (found_count(game, b"Round")
                    + (found_count(game, b"White")
                        + (found_count(game, b"Black")
                            + (found_count(game, b"FEN")
                                + (found_count(game, b"SetUp")
                                    + (found_count(game, b"Result")
                                        + found_count(game, b"Stipulation")))))))))
}

/// The number of tags of a game that a study does not have, or that repeat a name.
pub fn other_tags(game: &[u8]) -> u32
    ensures { result ≡ other_tags (tags_of game.now) }
{
    at_most(count_tags(game).saturating_sub(known_count(game)))
}

/// A number of things of one kind.
#[derive(Clone, Copy)]
pub struct Count<'t> {
    pub name: &'t [u8],
    pub number: u32,
}

fn separator(first: bool) -> &'static [u8]
    ensures { result.now ≡ separator first }
{
    if first { b"" } else { b", " }
}

/// Adds `NAME N`, after a comma if it is not the first.
fn add_count<A: Allocator>(
    out: &mut Text<'_, A>,
    first: bool,
    count: Count<'_>,
) -> Result<(), AllocError>
    ensures { OnOk result (out.new ≡ out.old
        ++ count_words first count.entry.name.now count.entry.number) }
{
    if count.number == 0 {
        return Ok(());
    }
    add_pieces(
        out,
        &[
            Piece::Bytes(separator(first)),
            Piece::Bytes(count.name),
            Piece::Bytes(b" "),
            Piece::Number(count.number),
        ],
    )
}

/// Adds the counts that are not 0.
fn add_counts<A: Allocator>(out: &mut Text<'_, A>, counts: &[Count<'_>]) -> Result<(), AllocError>
    ensures { OnOk result (out.new ≡ out.old ++ counts_words true (map count_seen counts.now)) }
{
    let mut first = true;
    let mut rest = counts;
    while let [count, more @ ..] = rest {
        add_count(out, first, *count)?;
        first = first && count.number == 0;
        rest = more;
    }
    Ok(())
}

/// Adds the counts of a game that are not 0.
#[tactic(auto, unfolding(crate::specs::Blocks::counted_words))]
pub fn add_counted<A: Allocator>(
    out: &mut Text<'_, A>,
    notes: &Notes,
    tags: u32,
    repeated: u32,
) -> Result<(), AllocError>
    ensures { OnOk result (out.new ≡ out.old ++ counted_words notes.now tags repeated) }
{
    add_counts(
        out,
        &[
            Count {
                name: b"comments",
                number: notes.comments,
            },
            Count {
                name: b"words",
                number: notes.words,
            },
            Count {
                name: b"NAGs",
                number: notes.asides,
            },
            Count {
                name: b"tags",
                number: tags,
            },
            Count {
                name: b"repeated",
                number: repeated,
            },
            Count {
                name: b"null moves",
                number: notes.null_moves,
            },
            Count {
                name: b"moves behind",
                number: notes.moves_behind,
            },
            Count {
                name: b"wrong signs",
                number: notes.wrong_signs,
            },
        ],
    )
}

/// Adds the line of the counts, if there are any.
pub fn add_counts_line<A: Allocator>(out: &mut Text<'_, A>, words: &[u8]) -> Result<(), AllocError>
    ensures { OnOk result (out.new ≡ out.old ++ counts_line words.now) }
{
    if words.is_empty() {
        return Ok(());
    }
    add_remark(out, &Remark::NotTakenOver(words))
}
