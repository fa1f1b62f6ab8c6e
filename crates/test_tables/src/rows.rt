//! Tables as the tests write them: one row a line, with commas between its fields. A proof takes long over a table of
//! values, and no time over a text.
use std::process::Abort;
use study_material::Class;

/// The field of a row with this number, from 0; empty if there is none.
pub fn field(row: &str, number: usize) -> &str {
    row.split(',').nth(number).unwrap_or("")
}

/// The number that a text spells.
pub fn number(rt: &impl Abort, text: &str) -> u32 {
    match text.parse::<u32>() {
        Ok(number) => number,
        Err(_) => panic!(rt; "{text}"),
    }
}

/// The byte that a text spells; `None` for any other text.
pub fn byte(text: &str) -> Option<u8> {
    text.parse::<u8>().ok()
}

/// The class of a name.
pub fn class(rt: &impl Abort, name: &str) -> Class {
    match Class::parse(name) {
        Ok(class) => class,
        Err(_) => panic!(rt; "{name}"),
    }
}
