//! Tables as the tests write them: one row a line, with commas between its fields. A proof takes long over a table of
//! values, and no time over a text.

/// The field of a row with this number, from 0; empty if there is none.
pub(crate) fn field(row: &str, number: usize) -> &str {
    row.split(',').nth(number).unwrap_or("")
}

/// The number that a text spells.
pub(crate) fn number(text: &str) -> Option<u32> {
    text.parse::<u32>().ok()
}
