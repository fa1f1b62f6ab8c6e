//! A file of games, read byte by byte.
ghost use Rattle.std.specs.Prelude.{◌≡◌, ◌++◌, [], ◌==◌, length, OnOk, IfOk};
ghost use Rattle.study_games.specs.Games.{without_mark, kind_of, with_byte, with_next, game_seen};
ghost use Rattle.study_import.specs.Blocks.{tally_with_game, reported_text};
ghost use Rattle.study_import.specs.Imported.{script_of, whole_file, all_games, nothing_held, still_written, still_tallied, written_of, tally_ahead, put_away};
ghost use Rattle.study_import.specs.Imported.{text_at_hand, TakesByte, KeepsTally, EndsLine, EndsLineTallied};
ghost use Rattle.study_import.specs.ImportedSeen.{tally_seen};

use crate::tail_block::add_chosen;
use std::alloc::{AllocError, Allocator};
use std::marker::Model;
use study_games::{Game, Gathering, LONGEST_LINE, LineKind, kind_of, without_mark};
use study_marks::Stipulation;
use study_remark::{Remark, add_remark};
use study_text::Text;

/// The games to write, by their numbers, and the stipulation of the games that state none.
#[derive(Clone, Copy, Debug, PartialEq, Eq)]
pub struct Choice {
    pub given: Option<Stipulation>,
    pub from: u32,
    pub to: u32,
    /// A game with more than four men begins where a comment states a position, if one does.
    pub tails: bool,
    /// A game with a fault among its moves is read up to there.
    pub up_to_faults: bool,
}

impl Choice {
    /// All games, from their own starts; `given` is the stipulation of the games that state none.
    pub fn whole_file(given: Option<Stipulation>, up_to_faults: bool) -> Self
        ensures { result ≡ whole_file given up_to_faults }
    {
        Choice {
            given,
            from: 1,
            to: u32::MAX,
            tails: false,
            up_to_faults,
        }
    }
}

/// The numbers of games so far, of those written, of those among these that have a study, and of their studies.
#[derive(Clone, Copy, Debug, Default, PartialEq, Eq)]
pub struct Imported {
    pub met: u32,
    pub reported: u32,
    pub with_study: u32,
    pub studies: u32,
}

/// An import: the current line and game, and the tally before.
#[derive(Drop)]
pub struct Importer<'a, A: Allocator> {
    alloc: &'a A,
    choice: Choice,
    line: Vec<u8, &'a A>,
    gathering: Gathering<'a, A>,
    tally: Imported,
}

impl<'a, A: Allocator> Model for Importer<'a, A> {
    ghost use Rattle.study_import.specs.Imported.{Held};
    ghost use Rattle.study_import.specs.ImportedSeen.{tally_seen};

    ghost Value = { Held };

    ghost view = { λ i. record {
      choice = i.choice;
      line = i.line.items;
      gathered = i.gathering;
      tally = tally_seen i.tally;
    } };
}

impl<'a, A: Allocator> Importer<'a, A> {
    /// Before the first byte.
    pub fn new(alloc: &'a A, choice: Choice) -> Self
        ensures { result ≡ nothing_held choice }
    {
        Importer {
            alloc,
            choice,
            line: Vec::new(alloc),
            gathering: Gathering::new(alloc),
            tally: Imported::default(),
        }
    }

    /// The number of games that have ended.
    pub fn game_count(&self) -> u32
        ensures { result ≡ self.now.tally.met }
    {
        self.tally.met
    }

    /// Takes the next byte. A game is written when the next one begins.
    pub fn take(&mut self, byte: u8, out: &mut Text<'_, A>) -> Result<(), AllocError>
        ensures written { OnOk result (TakesByte byte self.old out.old self.new out.new) }
        ensures tally { OnOk result (KeepsTally byte self.old self.new) }
    {
        self.hold(byte)?;
        if byte == b'\n' {
            self.end_line(out)?;
        }
        Ok(())
    }

    /// The end of the file: writes the last game, and how many there are.
    #[tactic(auto, using(crate::proofs::Ended::written_at_end, crate::proofs::Ended::tally_at_end))]
    pub fn finish(&mut self, out: &mut Text<'_, A>) -> Result<Imported, AllocError>
        ensures written { OnOk result (out.new ≡ out.old ++ still_written self.old []) }
        ensures tally { IfOk result (λ imported. tally_seen imported ≡ still_tallied self.old []) }
    {
        self.end_last_line(out)?;
        self.end_game(out)?;
        add_remark(out, &Remark::Total(self.tally.reported, self.tally.studies))?;
        Ok(self.tally)
    }

    /// The end of the file: the current line is whole, if it has a byte.
    fn end_last_line(&mut self, out: &mut Text<'_, A>) -> Result<(), AllocError>
        ensures written { OnOk result
            (out.old ++ still_written self.old [] ≡ out.new ++ written_of self.new []) }
        ensures tally { OnOk result (still_tallied self.old [] ≡ tally_ahead self.new []) }
    {
        if self.has_no_line() {
            return Ok(());
        }
        self.end_line(out)
    }

    /// Whether no byte of the current line was read.
    fn has_no_line(&self) -> bool
        ensures { result ≡ (length self.now.line == 0) }
    {
        self.line.as_slice().is_empty()
    }

    fn hold(&mut self, byte: u8) -> Result<(), AllocError>
        ensures { OnOk result (self.new ≡ record self.old { line = with_byte self.old.line byte }) }
    {
        if self.line.len() < LONGEST_LINE {
            self.line.push(byte)?;
        }
        Ok(())
    }

    fn kind(&self) -> LineKind
        ensures { result ≡ kind_of (without_mark self.now.line) }
    {
        kind_of(without_mark(self.line.as_slice()))
    }

    /// The current line is whole.
    fn end_line(&mut self, out: &mut Text<'_, A>) -> Result<(), AllocError>
        ensures written { OnOk result (EndsLine self.old out.old self.new out.new) }
        ensures tally { OnOk result (EndsLineTallied self.old self.new) }
        ensures line { OnOk result (self.new.line ≡ []) }
    {
        let kind = self.kind();
        if self.gathering.ends_before(kind) {
            self.end_game(out)?;
        }
        self.add_line(kind)
    }

    /// Adds the current line to the current game.
    fn add_line(&mut self, kind: LineKind) -> Result<(), AllocError>
        ensures { OnOk result (self.new ≡ record self.old {
          line = [];
          gathered = with_next self.old.gathered
              (without_mark self.old.line) kind;
        }) }
    {
        let line = without_mark(self.line.as_slice());
        self.gathering.add_line(line, kind)?;
        self.line.clear();
        Ok(())
    }

    /// Writes the current game, if there is one and it is chosen, and drops it.
    fn end_game(&mut self, out: &mut Text<'_, A>) -> Result<(), AllocError>
        ensures text { OnOk result
            (out.new ≡ out.old ++ text_at_hand self.old self.old.gathered.begun) }
        ensures then { OnOk result (self.new ≡ put_away self.old) }
    {
        if let Some(game) = self.gathering.game() {
            self.tally = tell_game(self.alloc, out, &self.choice, &self.tally, &game)?;
        }
        self.gathering.close();
        Ok(())
    }
}

/// Writes a game, if it is chosen.
fn tell_game<'a, A: Allocator>(
    alloc: &'a A,
    out: &mut Text<'_, A>,
    choice: &Choice,
    tally: &Imported,
    game: &Game<'_>,
) -> Result<Imported, AllocError>
    ensures text { OnOk result (out.new ≡ out.old
        ++ reported_text choice.now (tally_seen tally.now) (game_seen game.now)) }
    ensures then { IfOk result (λ t.
        tally_seen t ≡ tally_with_game choice.now (tally_seen tally.now) (game_seen game.now)) }
{
    let number = tally.met.saturating_add(1);
    if number < choice.from || choice.to < number {
        return Ok(Imported {
            met: number,
            reported: tally.reported,
            with_study: tally.with_study,
            studies: tally.studies,
        });
    }
    let studies = add_chosen(alloc, out, choice, number, game)?;
    Ok(Imported {
        met: number,
        reported: tally.reported.saturating_add(1),
        with_study: if studies != 0 {
            tally.with_study.saturating_add(1)
        } else {
            tally.with_study
        },
        studies: tally.studies.saturating_add(studies),
    })
}

/// The script of a PGN file: the blocks of the chosen games, and how many there are.
#[tactic(auto, using(crate::proofs::Ended::script_is))]
pub fn import_chosen<'a, A: Allocator>(
    alloc: &'a A,
    text: &[u8],
    choice: Choice,
) -> Result<Text<'a, A>, AllocError>
    ensures { IfOk result (λ script. script ≡ script_of choice text.now) }
{
    let mut importer = Importer::new(alloc, choice);
    let mut out = Text::new(alloc);
    let mut rest = text;
    while let [byte, more @ ..] = rest {
        importer.take(*byte, &mut out)?;
        rest = more;
    }
    importer.finish(&mut out)?;
    Ok(out)
}

/// The script of a PGN file: the blocks of its games, and how many there are. `given` is the stipulation of the games that state none.
pub fn import<'a, A: Allocator>(
    alloc: &'a A,
    text: &[u8],
    given: Option<Stipulation>,
) -> Result<Text<'a, A>, AllocError>
    ensures { IfOk result (λ script. script ≡ script_of (all_games given) text.now) }
{
    import_chosen(alloc, text, Choice::whole_file(given, false))
}
