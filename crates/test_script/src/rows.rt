//! Runs over a store in memory.
ghost use Rattle.std.specs.Prelude.{◌≤◌, IfSome};

use std::alloc::Allocator;
use std::process::Abort;
use study_material::Class;
use study_retro::{BuildRoom, build};
use study_script::{MemoryStore, RunFault, Settings, Summary, TableStore, run};
use study_table::TableSet;
use study_tablefile::write_table;
use study_text::{MemoryReader, MemoryWriter};
use study_values::cells;

/// Lines of a script, each followed by ` -> ` and its reply, or by ` ->` if it has none. A row without an arrow is one more line of the reply above
/// it.
pub(crate) type Rows<'r> = &'r str;

/// The text and the result of a run.
pub(crate) fn replies_of<'a, S: TableStore, A: Allocator>(
    alloc: &'a A,
    store: &mut S,
    pages: Option<u16>,
    script: &[u8],
) -> (Vec<u8, &'a A>, Result<Summary, RunFault>)
    requires { IfSome pages (λ n. (1 ≤ n) × (n ≤ 4096)) }
{
    let mut writer = MemoryWriter::new(alloc);
    let answer = run(
        alloc,
        &mut MemoryReader::new(script),
        &mut writer,
        store,
        Settings {
            pages,
            separate: false,
        },
    );
    (writer.taken, answer)
}

/// A script and the expected replies.
#[derive(Drop)]
pub(crate) struct Case<'a, A: Allocator> {
    pub script: Vec<u8, &'a A>,
    pub replies: Vec<u8, &'a A>,
    pub lines: u32,
    pub refused: u32,
}

impl<'a, A: Allocator> Case<'a, A> {
    pub(crate) fn new(alloc: &'a A) -> Self {
        Case {
            script: Vec::new(alloc),
            replies: Vec::new(alloc),
            lines: 0,
            refused: 0,
        }
    }

    /// One more line.
    pub(crate) fn add_line(&mut self, rt: &impl Abort, line: &str) {
        put_line(rt, &mut self.script, line);
        self.lines = self.lines.saturating_add(1);
    }

    /// One more line of the replies.
    pub(crate) fn add_reply(&mut self, rt: &impl Abort, reply: &str) {
        put_line(rt, &mut self.replies, reply);
        if reply.starts_with("error ") {
            self.refused = self.refused.saturating_add(1);
        }
    }

    /// The script and the replies of rows.
    pub(crate) fn add_rows(&mut self, rt: &impl Abort, rows: Rows<'_>) {
        for row in rows.lines() {
            match row.split_once(" ->") {
                None => self.add_reply(rt, row),
                Some((line, reply)) => {
                    self.add_line(rt, line);
                    if let Some(reply) = reply.strip_prefix(' ') {
                        self.add_reply(rt, reply);
                    }
                }
            }
        }
    }

    /// Whether these are the replies and the result of a run over the script.
    pub(crate) fn is_had(&self, text: &[u8], answer: Result<Summary, RunFault>) -> bool {
        let (lines, refused) = (self.lines, self.refused);
        text == self.replies.as_slice() && answer == Ok(Summary { lines, refused })
    }

    /// Runs the script, and compares the replies.
    pub(crate) fn check<S: TableStore>(
        &self,
        rt: &impl Abort,
        alloc: &A,
        store: &mut S,
        pages: Option<u16>,
    )
        requires { IfSome pages (λ n. (1 ≤ n) × (n ≤ 4096)) }
    {
        let (text, answer) = replies_of(alloc, store, pages, self.script.as_slice());
        let text = std::str::from_utf8(text.as_slice()).unwrap_or("no text");
        let wanted = std::str::from_utf8(self.replies.as_slice()).unwrap_or("no text");
        assert_eq!(rt; text, wanted);
        let (lines, refused) = (self.lines, self.refused);
        assert_eq!(rt; answer, Ok(Summary { lines, refused }));
    }
}

fn put_line<A: Allocator>(rt: &impl Abort, text: &mut Vec<u8, &A>, line: &str) {
    assert!(rt; text.extend_from_slice(line.as_bytes()).is_ok());
    assert!(rt; text.push(b'\n').is_ok());
}

/// Runs the lines, and compares the replies.
pub(crate) fn check_over<S: TableStore, A: Allocator>(
    rt: &impl Abort,
    alloc: &A,
    store: &mut S,
    pages: Option<u16>,
    rows: Rows<'_>,
)
    requires { IfSome pages (λ n. (1 ≤ n) × (n ≤ 4096)) }
{
    let mut case = Case::new(alloc);
    case.add_rows(rt, rows);
    case.check(rt, alloc, store, pages);
}

/// The same over a store without files.
pub(crate) fn check<A: Allocator>(rt: &impl Abort, alloc: &A, rows: Rows<'_>) {
    check_over(rt, alloc, &mut no_files(alloc), None, rows);
}

/// A store without files, and without writers for saved files.
pub(crate) fn no_files<'f, 'a, A: Allocator>(_alloc: &'a A) -> MemoryStore<'f, 'a, 'a, A> {
    MemoryStore::new(&[])
}

/// The text of the built table of the last of these classes, each of which needs only those before it.
pub(crate) fn text_of<'a, A: Allocator>(
    rt: &impl Abort,
    alloc: &'a A,
    classes: &[Class],
) -> Vec<u8, &'a A> {
    let mut tables = TableSet::new(alloc).ok().expect(rt, "a set");
    let mut writer = MemoryWriter::new(alloc);
    for class in classes {
        let room = BuildRoom::new(alloc, cells(*class)).ok().expect(rt, "room");
        let (table, _) = build(*class, &tables, room).ok().expect(rt, "a table");
        writer = MemoryWriter::new(alloc);
        assert!(rt; write_table(&table, &mut writer).is_ok());
        assert!(rt; tables.add(table).is_ok());
    }
    writer.taken
}
