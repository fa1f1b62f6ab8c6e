//! The pages of a file in memory.
ghost use Rattle.std.specs.Prelude.{◌≡◌, ℕ, ◌<◌, ◌↔◌, Some, Ok, Err, length, take};
ghost use Rattle.std.specs.Prelude.{drop, ◌≤◌, IsErrOf, IfErr};
ghost use Rattle.std.specs.Prelude.{OnOk, OnErr, ◌≢◌, ◌+◌, ◌-◌, ◌*◌};
ghost use Rattle.study_text.specs.Counts.{next_count};
ghost use Rattle.study_tablefile.specs.PageSource.{page_of, IsAnswerOf, of_header, of_page};
ghost use Rattle.study_tablefile.specs.Format.{header_text, table_text};
ghost use Rattle.study_values.specs.Size.{pages_of};
ghost use Rattle.study_table.specs.Table.{Table as Seen};

use crate::page_source::PageSource;
use study_values::{HEADER_BYTES, PAGE_BYTES, SourceFault};

/// The pages of a text in memory, which fail at a request that a test sets.
#[derive(Drop)]
pub struct MemorySource<'a> {
    pub text: &'a [u8],
    /// The number of headers and pages requested.
    pub asked: u64,
    /// The number of the failing request, counted from 0; `None`: none fails.
    pub fails_at: Option<u64>,
    pub failures: u64,
}

impl<'a> MemorySource<'a> {
    /// The file's bytes from a place on, or a fault that is counted.
    fn bytes(&mut self, start: usize, into: &mut [u8]) -> Result<(), SourceFault>
        // Many clauses: those of `PageSource`, in the terms of this file.
        ensures len { length into.new ≡ length into.old }
        ensures text { self.new.text.now ≡ self.old.text.now }
        ensures plan { self.new.fails_at ≡ self.old.fails_at }
        ensures asked { self.new.asked ≡ next_count self.old.asked }
        ensures ok { OnOk result (into.new
            ≡ take (length into.old) (drop start self.old.text.now)) }
        ensures within { OnOk result (start + length into.old ≤ length self.old.text.now) }
        ensures device { IsErrOf result SourceFault.Device
            ↔ (self.old.fails_at ≡ Some self.old.asked) }
        ensures short { IsErrOf result SourceFault.Short
            ↔ ((self.old.fails_at ≢ Some self.old.asked)
            × (length self.old.text.now < start + length into.old)) }
        ensures no_failure { OnOk result (self.new.failures ≡ self.old.failures) }
        ensures failure { OnErr result (self.new.failures ≡ next_count self.old.failures) }
    {
        let number = self.asked;
        self.asked = self.asked.saturating_add(1);
        if self.fails_at == Some(number) {
            self.failures = self.failures.saturating_add(1);
            return Err(SourceFault::Device);
        }
        if self.text.len() < start || self.text.len() - start < into.len() {
            self.failures = self.failures.saturating_add(1);
            return Err(SourceFault::Short);
        }
        let (_, rest) = self.text.split_at(start);
        let (bytes, _) = rest.split_at(into.len());
        into.copy_from_slice(bytes);
        Ok(())
    }
}

/// The place of the first byte of a page in a file.
fn page_start(n: u32) -> usize
    ensures { result ≡ 64 + 4128 * n }
{
    HEADER_BYTES + PAGE_BYTES * n as usize
}

impl<'a> PageSource for MemorySource<'a> {
    ghost honest = { λ s t v. s.text.now ≡ table_text t v };

    ghost gives = { λ s q a. IsAnswerOf s.text.now s.fails_at q a };

    ghost failed = { λ s. s.failures };

    ghost asked = { λ s. s.asked };

    #[tactic(auto, using(crate::proofs::ReadAgain::header_given))]
    fn header(&mut self, into: &mut [u8; HEADER_BYTES]) -> Result<(), SourceFault>
        // Many clauses: those of `PageSource`, in the terms of this file.
        ensures ok { (t : Seen) (v : ℕ) → self.old.text.now ≡ table_text t v
            → OnOk result (into.new ≡ header_text t.class v) }
        ensures given { OnOk result
            (IsAnswerOf self.old.text.now self.old.fails_at of_header (Ok into.new)) }
        ensures refused { IfErr result (λ fault.
            IsAnswerOf self.old.text.now self.old.fails_at of_header (Err fault)) }
        ensures text { self.new.text.now ≡ self.old.text.now }
        ensures plan { self.new.fails_at ≡ self.old.fails_at }
        ensures asked { self.new.asked ≡ next_count self.old.asked }
        ensures device { IsErrOf result SourceFault.Device
            ↔ (self.old.fails_at ≡ Some self.old.asked) }
        ensures short { IsErrOf result SourceFault.Short
            ↔ ((self.old.fails_at ≢ Some self.old.asked) × (length self.old.text.now < 64)) }
        ensures no_failure { OnOk result (self.new.failures ≡ self.old.failures) }
        ensures failure { OnErr result (self.new.failures ≡ next_count self.old.failures) }
    {
        self.bytes(0, into)
    }

    fn page(&mut self, n: u32, into: &mut [u8; PAGE_BYTES]) -> Result<(), SourceFault>
        // Many clauses: those of `PageSource`, in the terms of this file.
        ensures ok { (t : Seen) (v : ℕ) → self.old.text.now ≡ table_text t v → n < pages_of t.class
            → OnOk result (into.new ≡ page_of t v n) }
        ensures given { OnOk result
            (IsAnswerOf self.old.text.now self.old.fails_at (of_page n) (Ok into.new)) }
        ensures refused { IfErr result (λ fault.
            IsAnswerOf self.old.text.now self.old.fails_at (of_page n) (Err fault)) }
        ensures text { self.new.text.now ≡ self.old.text.now }
        ensures plan { self.new.fails_at ≡ self.old.fails_at }
        ensures asked { self.new.asked ≡ next_count self.old.asked }
        ensures device { IsErrOf result SourceFault.Device
            ↔ (self.old.fails_at ≡ Some self.old.asked) }
        ensures short { IsErrOf result SourceFault.Short
            ↔ ((self.old.fails_at ≢ Some self.old.asked)
            × (length self.old.text.now < 4192 + 4128 * n)) }
        ensures no_failure { OnOk result (self.new.failures ≡ self.old.failures) }
        ensures failure { OnErr result (self.new.failures ≡ next_count self.old.failures) }
    {
        self.bytes(page_start(n), into)
    }

    fn failures(&self) -> u64 {
        self.failures
    }
}
