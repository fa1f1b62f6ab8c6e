//! An entry of a report.
ghost use Rattle.std.specs.Prelude.{◌≡◌};
ghost use Rattle.study_entry.specs.Entry.{no_names, whole};

use crate::name::Name;

/// How an entry stands in what it was taken from.
#[derive(Clone, Copy, Debug, PartialEq, Eq)]
pub enum Standing {
    /// A study that was read to its end.
    Whole,
    /// A study of which a line was refused, the first in this line of the script: it lacks what that line was to give.
    NotRead(u32),
    /// The end of a line of a study with more men, beside that study's solution.
    BesideSolution,
}

/// The texts of the tags that a page shows, in their own letters: UTF-8 or Latin 1. One that is not known is empty.
#[derive(Clone, Copy)]
pub struct Names {
    pub event: Name,
    pub site: Name,
    pub date: Name,
    pub round: Name,
    pub white: Name,
}

impl Names {
    /// No text is known.
    pub fn none() -> Names
        ensures { result ≡ no_names }
    {
        Names {
            event: Name::none(),
            site: Name::none(),
            date: Name::none(),
            round: Name::none(),
            white: Name::none(),
        }
    }
}

/// What a report knows of a study from what it was taken from: how it stands there, and its names.
#[derive(Clone, Copy)]
pub struct Origin {
    pub standing: Standing,
    pub names: Names,
}

impl Origin {
    /// A study that was read to its end, without names in other letters.
    pub fn whole() -> Origin
        ensures { result ≡ whole }
    {
        Origin {
            standing: Standing::Whole,
            names: Names::none(),
        }
    }
}

/// What a report knows of an entry beside its study: its number among the entries, from 1, and its origin.
#[derive(Clone, Copy)]
pub struct EntryInfo {
    pub number: u32,
    pub origin: Origin,
}
