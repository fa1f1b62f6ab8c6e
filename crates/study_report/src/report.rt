//! The forms of a report.
ghost use Rattle.std.specs.Prelude.{◌≡◌, ℕ, List, [], ◌∷◌, ◌++◌, Err, OnOk, OnErr};
ghost use Rattle.std.specs.Io.KnownBytes.{Appends};
ghost use Rattle.study_values.specs.declared.values.ProbeFault.{ProbeFault as AProbeFault};
ghost use Rattle.study_text.specs.Taken.{TakesPrefix};
ghost use Rattle.study_marks.specs.Edits.{PlainStudy};
ghost use Rattle.study_marks.specs.BenchState.{marked_study, IsKeptRight};
ghost use Rattle.study_marks.specs.Study.{plain_study};
ghost use Rattle.study_facts.specs.Asked.{within};
ghost use Rattle.study_facts.specs.Order.{HasReviewed};
ghost use Rattle.study_entry.specs.declared.entry.EntryInfo.{EntryInfo as AnEntry};
ghost use Rattle.study_reply.specs.Replied.{error_text};
ghost use Rattle.study_report.specs.Reported.{Entry, study_entry, games_in};

use std::alloc::Allocator;
use std::io::Write;
use study_entry::EntryInfo;
use study_facts::{ReviewFault, WriteFault};
use study_marks::Bench;
use study_reply::LineRefusal;
use study_values::Values;

/// The text of a report for a study, for a refused line, and for a remark.
pub trait Report {
    /// The text reports the study as this entry.
    ghost tells: { PlainStudy → AnEntry → List ℕ → Type 0 };

    /// The form of each text for the study as this entry, whatever its values are.
    ghost form: { PlainStudy → AnEntry → List ℕ → Type 0 };

    /// The report of a refused line: its number among all lines, its bytes, and the script's reply to it.
    ghost refusal: { ℕ → List ℕ → List ℕ → List ℕ };

    /// The report of a remark: the number that an entry has in its place, and its bytes.
    ghost remark: { ℕ → List ℕ → List ℕ };

    /// The summary that the report keeps for its end lists these entries: studies and games that were left out, each with its number, in the order in
    /// which they were reported.
    ghost lists: { Self → List Entry → Type 0 };

    /// Reports the study as this entry. Nothing is written before its last value was probed.
    fn add_study<'a, 'b, A: Allocator, B: Allocator, V: Values, W: Write>(
        &mut self,
        alloc: &'a A,
        bench: &Bench<'b, B>,
        values: &mut V,
        info: EntryInfo,
        out: &mut W,
    ) -> Result<(), ReviewFault>
        ensures reported { V.source.is_honest values.old → IsKeptRight bench.now
            → OnOk result ((text : List ℕ)
            × tells (plain_study (marked_study bench.now)) info text
            × Appends (W.contents out.old) (W.contents out.new) text) }
        ensures formed { OnOk result ((text : List ℕ)
            × form (plain_study (marked_study bench.now)) info text
            × Appends (W.contents out.old) (W.contents out.new) text) }
        ensures device { V.source.is_honest values.old → IsKeptRight bench.now
            → result ≡ Err ReviewFault.Device → (text : List ℕ)
            × tells (plain_study (marked_study bench.now)) info text
            × TakesPrefix (W.contents out.old) (W.contents out.new) text }
        ensures memory { result ≡ Err ReviewFault.OutOfMemory → out.new ≡ out.old }
        ensures no_value { (fault : AProbeFault)
            → result ≡ Err (ReviewFault.Values fault) → out.new ≡ out.old }
        ensures listed { (reported : List Entry) → V.source.is_honest values.old
            → IsKeptRight bench.now → lists self.old reported
            → OnOk result
            (lists self.new (reported ++ study_entry (plain_study (marked_study bench.now)) info ∷ [])) }
        ensures unlisted { (reported : List Entry) → lists self.old reported
            → OnErr result (lists self.new reported) }
        ensures asked { HasReviewed (within (marked_study bench.now).start.position V.source)
            values.old result values.new };

    /// Reports a refused line: its number, its bytes, and why it is refused.
    fn add_refusal<'a, 'b, A: Allocator, B: Allocator, W: Write>(
        &mut self,
        alloc: &'a A,
        number: u32,
        line: &[u8],
        refused: &LineRefusal<'b, B>,
        out: &mut W,
    ) -> Result<(), WriteFault>
        ensures reported { OnOk result
            (Appends (W.contents out.old) (W.contents out.new)
            (refusal number line.now (error_text refused.now))) }
        ensures device { result ≡ Err WriteFault.Device
            → TakesPrefix (W.contents out.old) (W.contents out.new)
            (refusal number line.now (error_text refused.now)) }
        ensures memory { result ≡ Err WriteFault.OutOfMemory → out.new ≡ out.old }
        ensures listed { (reported : List Entry) → lists self.old reported
            → lists self.new reported };

    /// Reports a remark: a comment that says why a game is left out, or that has the original text of a tag. A game that is left out is the entry with
    /// this number.
    fn add_remark<'a, A: Allocator, W: Write>(
        &mut self,
        alloc: &'a A,
        number: u32,
        line: &[u8],
        out: &mut W,
    ) -> Result<(), WriteFault>
        ensures reported { OnOk result
            (Appends (W.contents out.old) (W.contents out.new) (remark number line.now)) }
        ensures device { result ≡ Err WriteFault.Device
            → TakesPrefix (W.contents out.old) (W.contents out.new) (remark number line.now) }
        ensures memory { result ≡ Err WriteFault.OutOfMemory → out.new ≡ out.old }
        ensures listed { (reported : List Entry) → lists self.old reported
            → OnOk result (lists self.new (reported ++ games_in number line.now)) }
        ensures unlisted { (reported : List Entry) → lists self.old reported
            → OnErr result (lists self.new reported) };
}
