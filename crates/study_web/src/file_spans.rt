//! The directory of the files of a request.
ghost use Rattle.std.specs.Prelude.{◌≡◌, ◌≤◌, ◌+◌, IsTrue, MatchOption, Some, None, length};
ghost use Rattle.study_web.specs.Spans.{is_file_of, file_in};

use study_material::Class;

/// The place of a class's file in the bytes of the request.
#[derive(Clone, Copy, Debug, PartialEq, Eq)]
pub struct FileSpan {
    /// The index of the class in the class list, from 0. An index beyond the list is that of no file.
    pub class: usize,
    /// The file's first byte, from 0.
    pub start: usize,
    /// In bytes.
    pub length: usize,
}

/// The table files of a request, and how they are read.
#[derive(Clone, Copy)]
pub struct TableFiles<'f> {
    /// The span of each file.
    pub spans: &'f [FileSpan],
    /// The files, one after the other.
    pub bytes: &'f [u8],
    /// The number of pages kept in memory, from 1 to 4,096; `None` if tables are read whole.
    pub pages: Option<u16>,
}

/// Whether the span is for this class and lies within the bytes.
fn is_file_of(class: Class, bytes: &[u8], span: &FileSpan) -> bool
    ensures value { result ≡ is_file_of class bytes.now span.now }
    ensures within { IsTrue result → span.now.start + span.now.length ≤ length bytes.now }
{
    span.class == class as usize
        && span.start <= bytes.len()
        && span.length <= bytes.len() - span.start
}

/// The file of a class: the bytes of the first valid span for it. Spans may overlap.
pub fn file_in<'f>(spans: &[FileSpan], bytes: &'f [u8], class: Class) -> Option<&'f [u8]>
    ensures { MatchOption result (file_in spans.now bytes.now class ≡ None) (λ file.
        file_in spans.now bytes.now class ≡ Some file.now) }
{
    for span in spans {
        if is_file_of(class, bytes, span) {
            let (_, rest) = bytes.split_at(span.start);
            let (file, _) = rest.split_at(span.length);
            return Some(file);
        }
    }
    None
}
