//! Written tables are read back, only written texts are read as tables, and the pages of a table are whole.
ghost use Rattle.std.specs.Prelude.{◌≡◌, ◌<◌, ℕ, List, true, Ok, All};
ghost use Rattle.study_values.specs.Number.{cells_of};
ghost use Rattle.study_table.specs.Table.{Table as Seen, IsComplete};
ghost use Rattle.study_tablefile.specs.Format.{IsVersionOf, fields_text, table_text};
ghost use Rattle.study_tablefile.specs.Reading.{table_read};
ghost use Rattle.study_tablefile.specs.PageSource.{is_whole_page, page_of};

/// `read_table` reads the text of a table, in each version that its files can have, as that table.
pub fn tables_are_read_again()
    ensures { (t : Seen) (v : ℕ) → IsComplete t → IsVersionOf t.class v
        → table_read (table_text t v) ≡ Ok t }
{}

/// Bytes that `read_table` reads as a table are its text in a version that its files can have. The table has a cell for each number of its class.
pub fn only_texts_are_read()
    ensures text { (bytes : List ℕ) (t : Seen) → table_read bytes ≡ Ok t → (v : ℕ)
        × IsVersionOf t.class v × (bytes ≡ table_text t v) }
    ensures complete { (bytes : List ℕ) (t : Seen) → All (λ b. b < 256) bytes
        → table_read bytes ≡ Ok t → IsComplete t }
{}

/// Each page of a table has the digest of its cells and zero bytes after the last cell, as `page_cells` requires.
pub fn pages_are_whole()
    ensures { (t : Seen) (v n : ℕ) → IsComplete t
        → is_whole_page (fields_text t.class v) (cells_of t.class) n (page_of t v n) ≡ true }
{}
