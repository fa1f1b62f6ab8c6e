//! A study as a record of comma-separated values (RFC 4180).
ghost use Rattle.std.specs.Prelude.{◌≡◌, ℕ, List, ◌++◌, OnOk, OnErr, IfOk, Err, codes, decimal};
ghost use Rattle.std.specs.List.{flat_map, list_any};
ghost use Rattle.std.specs.Io.KnownBytes.{Appends};
ghost use Rattle.study_text.specs.Taken.{TakesPrefix};
ghost use Rattle.study_values.specs.declared.values.ProbeFault.{ProbeFault as AProbeFault};
ghost use Rattle.study_notation.specs.FenSpelling.{fen_text};
ghost use Rattle.study_marks.specs.BenchState.{marked_study, IsKeptRight};
ghost use Rattle.study_marks.specs.Study.{plain_study};
ghost use Rattle.study_pgn.specs.Pgn.{stipulation_text};
ghost use Rattle.study_facts.specs.Asked.{within};
ghost use Rattle.study_facts.specs.Order.{HasReviewed};
ghost use Rattle.study_facts.specs.Made.{HasAsked};
ghost use Rattle.study_head.specs.Verdict.{IsLegalStamp};
ghost use Rattle.study_page.specs.Csv.{is_special, quoted_byte, quoted_text, field, column, head_record, names, verdict_fields, record_text, refused_record};
ghost use Rattle.study_page.specs.Csv.{IsRecord, IsSomeRecordOf, IsRecordOf};

use std::alloc::{AllocError, Allocator};
use std::io::Write;
use study_entry::{EntryInfo, Names};
use study_facts::{ReviewFault, TextFault, WriteFault};
use study_head::{
    SolutionFacts, Stamp, add_first_fault, add_stamp_words, entry_judgement, named_tag,
    solution_facts,
};
use study_marks::{Bench, TagName};
use study_notation::write_fen;
use study_pgn::add_stipulation;
use study_text::{DeviceFailed, Text, write_text};
use study_values::Values;

/// Whether a field with the byte stands in quotation marks.
fn is_special(byte: u8) -> bool
    ensures { result ≡ is_special byte }
{
    byte == b',' || byte == b'"' || byte == b'\r' || byte == b'\n'
}

fn add_doubled<A: Allocator>(text: &mut Text<'_, A>, byte: u8) -> Result<(), AllocError>
    ensures { OnOk result (text.new ≡ text.old ++ quoted_byte byte) }
{
    if byte == b'"' {
        text.add(b"\"\"")
    } else {
        text.add(&[byte])
    }
}

/// Adds a text in which each quotation mark is written twice.
fn add_doubled_each<A: Allocator>(text: &mut Text<'_, A>, bytes: &[u8]) -> Result<(), AllocError>
    ensures { OnOk result (text.new ≡ text.old ++ flat_map quoted_byte bytes.now) }
{
    for byte in bytes {
        add_doubled(text, *byte)?;
    }
    Ok(())
}

/// Adds a field in quotation marks.
#[tactic(auto, unfolding(crate::specs::Csv::quoted_text))]
pub fn add_quoted<A: Allocator>(text: &mut Text<'_, A>, bytes: &[u8]) -> Result<(), AllocError>
    ensures { OnOk result (text.new ≡ text.old ++ quoted_text bytes.now) }
{
    text.add(b"\"")?;
    add_doubled_each(text, bytes)?;
    text.add(b"\"")
}

/// Whether a field stands in quotation marks.
fn has_special(bytes: &[u8]) -> bool
    ensures { result ≡ list_any is_special bytes.now }
{
    bytes.iter().any(|byte| is_special(*byte))
}

/// Adds a field, in quotation marks if it needs them.
fn add_field<A: Allocator>(text: &mut Text<'_, A>, bytes: &[u8]) -> Result<(), AllocError>
    ensures { OnOk result (text.new ≡ text.old ++ field bytes.now) }
{
    if has_special(bytes) {
        return add_quoted(text, bytes);
    }
    text.add(bytes)
}

/// Adds a field and the comma behind it.
#[tactic(auto, unfolding(crate::specs::Csv::column))]
fn add_column<A: Allocator>(text: &mut Text<'_, A>, bytes: &[u8]) -> Result<(), AllocError>
    ensures { OnOk result (text.new ≡ text.old ++ column bytes.now) }
{
    add_field(text, bytes)?;
    text.add(b",")
}

fn add_number<'a, A: Allocator>(
    alloc: &'a A,
    text: &mut Text<'_, A>,
    number: u32,
) -> Result<(), AllocError>
    ensures { OnOk result (text.new ≡ text.old ++ column (decimal number)) }
{
    let mut digits = Text::new(alloc);
    digits.add_number(number)?;
    add_column(text, digits.as_slice())
}

/// Title and author, if they are known, in their own letters as far as these are known.
#[tactic(auto, unfolding(crate::specs::Csv::names))]
fn add_names<'a, 'b, A: Allocator, B: Allocator>(
    alloc: &'a A,
    text: &mut Text<'_, A>,
    bench: &Bench<'b, B>,
    own: &Names,
) -> Result<(), AllocError>
    ensures { OnOk result (text.new ≡ text.old ++ names (marked_study bench.now) own.now) }
{
    let title = named_tag(alloc, bench, TagName::Event, &own.event)?;
    let author = named_tag(alloc, bench, TagName::White, &own.white)?;
    add_column(text, title.as_slice())?;
    add_column(text, author.as_slice())
}

fn add_fen<'b, A: Allocator, B: Allocator>(
    text: &mut Text<'_, A>,
    bench: &Bench<'b, B>,
) -> Result<(), AllocError>
    ensures { OnOk result (text.new ≡ text.old
        ++ column (fen_text (marked_study bench.now).start)) }
{
    add_column(text, write_fen(bench.start()).as_str().as_bytes())
}

fn add_wanted<'a, 'b, A: Allocator, B: Allocator>(
    alloc: &'a A,
    text: &mut Text<'_, A>,
    bench: &Bench<'b, B>,
) -> Result<(), AllocError>
    ensures { OnOk result (text.new ≡ text.old
        ++ column (stipulation_text (marked_study bench.now).stipulation)) }
{
    let mut words = Text::new(alloc);
    add_stipulation(&mut words, bench.stipulation())?;
    add_column(text, words.as_slice())
}

/// Adds a verdict and the worst dual.
fn add_verdict<'a, A: Allocator>(
    alloc: &'a A,
    text: &mut Text<'_, A>,
    stamp: &Stamp,
    facts: &SolutionFacts,
) -> Result<(), AllocError>
    requires { IsLegalStamp stamp.now }
    ensures { OnOk result (text.new ≡ text.old ++ verdict_fields stamp.now facts.now) }
{
    let mut words = Text::new(alloc);
    let mut fault = Text::new(alloc);
    add_stamp_words(&mut words, stamp)?;
    add_column(text, words.as_slice())?;
    add_first_fault(&mut fault, stamp, facts)?;
    add_field(text, fault.as_slice())
}

/// The record of an entry with these facts.
#[tactic(auto, unfolding(crate::specs::Csv::record_text))]
fn add_record<'a, 'b, A: Allocator, B: Allocator>(
    alloc: &'a A,
    text: &mut Text<'_, A>,
    bench: &Bench<'b, B>,
    facts: &SolutionFacts,
    info: EntryInfo,
) -> Result<(), AllocError>
    ensures { OnOk result (text.new ≡ text.old
        ++ record_text (marked_study bench.now) facts.now info) }
{
    let judged = entry_judgement(bench, facts, info.origin.standing);
    add_number(alloc, text, info.number)?;
    add_names(alloc, text, bench, &info.origin.names)?;
    add_fen(text, bench)?;
    add_wanted(alloc, text, bench)?;
    add_verdict(alloc, text, &judged.stamp, facts)?;
    text.add(b"\r\n")
}

/// The record of the study.
fn record_of<'a, 'b, A: Allocator, B: Allocator, V: Values>(
    alloc: &'a A,
    bench: &Bench<'b, B>,
    values: &mut V,
    info: EntryInfo,
) -> Result<Text<'a, A>, TextFault>
    ensures text { V.source.is_honest values.old
        → IfOk result (λ text. IsRecord (marked_study bench.now) info text) }
    ensures form { IfOk result
        (IsSomeRecordOf (plain_study (marked_study bench.now)) info) }
    ensures asked { HasAsked (within (marked_study bench.now).start.position V.source)
        values.old result values.new }
{
    let mut text = Text::new(alloc);
    let facts = solution_facts(alloc, bench, values)?;
    add_record(alloc, &mut text, bench, &facts, info)?;
    Ok(text)
}

/// Writes the head of a list: the names of the seven fields.
#[tactic(auto, unfolding(crate::specs::Csv::head_record))]
pub fn write_head_record<W: Write>(out: &mut W) -> Result<(), DeviceFailed>
    ensures ok { OnOk result (Appends (W.contents out.old) (W.contents out.new) head_record) }
    ensures err { OnErr result (TakesPrefix (W.contents out.old) (W.contents out.new) head_record) }
{
    write_text(
        out,
        b"Number,Title,Author,FEN,Stipulation,Verdict,Worst dual\r\n",
    )
}

/// Writes a study as a record of comma-separated values, ended by CR LF: number, title, author, FEN, stipulation, verdict, and the worst
/// dual. What is not known is empty.
///
/// The record is made whole first, so want of memory, and a value that cannot be read, are reported before the first byte.
pub fn write_record<'a, 'b, A: Allocator, B: Allocator, V: Values, W: Write>(
    alloc: &'a A,
    bench: &Bench<'b, B>,
    values: &mut V,
    info: EntryInfo,
    out: &mut W,
) -> Result<(), ReviewFault>
    ensures plain { V.source.is_honest values.old → IsKeptRight bench.now
        → OnOk result ((text : List ℕ)
        × IsRecordOf (plain_study (marked_study bench.now)) info text
        × Appends (W.contents out.old) (W.contents out.new) text) }
    ensures form { OnOk result ((text : List ℕ)
        × IsSomeRecordOf (plain_study (marked_study bench.now)) info text
        × Appends (W.contents out.old) (W.contents out.new) text) }
    ensures device { V.source.is_honest values.old → IsKeptRight bench.now
        → result ≡ Err ReviewFault.Device → (text : List ℕ)
        × IsRecordOf (plain_study (marked_study bench.now)) info text
        × TakesPrefix (W.contents out.old) (W.contents out.new) text }
    ensures memory { result ≡ Err ReviewFault.OutOfMemory → out.new ≡ out.old }
    ensures no_value { (fault : AProbeFault)
        → result ≡ Err (ReviewFault.Values fault) → out.new ≡ out.old }
    ensures asked { HasReviewed (within (marked_study bench.now).start.position V.source)
        values.old result values.new }
{
    let text = record_of(alloc, bench, values, info)?;
    write_text(out, text.as_slice())?;
    Ok(())
}

/// Adds `line 7: ` and the line.
fn add_line<A: Allocator>(
    text: &mut Text<'_, A>,
    number: u32,
    line: &[u8],
) -> Result<(), AllocError>
    ensures { OnOk result (text.new ≡ text.old
        ++ (codes "line " ++ (decimal number ++ (codes ": " ++ line.now)))) }
{
    text.add(b"line ")?;
    text.add_number(number)?;
    text.add(b": ")?;
    text.add(line)
}

/// Adds the column of a refused line.
fn add_refused_line<'a, A: Allocator>(
    alloc: &'a A,
    text: &mut Text<'_, A>,
    number: u32,
    line: &[u8],
) -> Result<(), AllocError>
    ensures { OnOk result (text.new ≡ text.old
        ++ column (codes "line " ++ (decimal number ++ (codes ": " ++ line.now)))) }
{
    let mut words = Text::new(alloc);
    add_line(&mut words, number, line)?;
    add_column(text, words.as_slice())
}

/// Adds the column with the name of a refusal.
fn add_refusal<'a, A: Allocator>(
    alloc: &'a A,
    text: &mut Text<'_, A>,
    name: &[u8],
) -> Result<(), AllocError>
    ensures { OnOk result (text.new ≡ text.old ++ column (codes "refused: " ++ name.now)) }
{
    let mut words = Text::new(alloc);
    words.add(b"refused: ")?;
    words.add(name)?;
    add_column(text, words.as_slice())
}

#[tactic(auto, unfolding(crate::specs::Csv::refused_record))]
fn add_refused<'a, A: Allocator>(
    alloc: &'a A,
    text: &mut Text<'_, A>,
    number: u32,
    line: &[u8],
    name: &[u8],
) -> Result<(), AllocError>
    ensures { OnOk result (text.new ≡ text.old ++ refused_record number line.now name.now) }
{
    text.add(b",")?;
    add_refused_line(alloc, text, number, line)?;
    text.add(b",,,")?;
    add_refusal(alloc, text, name)?;
    text.add(b"\r\n")
}

/// Writes a refused line as a record: its number and its text in place of a title, and the name of the refusal in place of a verdict.
pub fn write_refused_record<'a, A: Allocator, W: Write>(
    alloc: &'a A,
    number: u32,
    line: &[u8],
    name: &[u8],
    out: &mut W,
) -> Result<(), WriteFault>
    ensures ok { OnOk result
        (Appends (W.contents out.old) (W.contents out.new)
        (refused_record number line.now name.now)) }
    ensures device { result ≡ Err WriteFault.Device
        → TakesPrefix (W.contents out.old) (W.contents out.new)
        (refused_record number line.now name.now) }
    ensures memory { result ≡ Err WriteFault.OutOfMemory → out.new ≡ out.old }
{
    let mut text = Text::new(alloc);
    add_refused(alloc, &mut text, number, line, name)?;
    write_text(out, text.as_slice())?;
    Ok(())
}
