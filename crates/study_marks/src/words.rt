//! The words of a value, and of the mark of a move.
ghost use Rattle.std.specs.Prelude.{◌≡◌, ◌++◌, ◌+◌, ◌≤◌, decimal, length};
ghost use Rattle.study_marks.specs.Marks.{value_words, on_move_text};

use crate::mark::MoveMark;
use arrayvec::ArrayString;
use itoa::Buffer;
use study_values::Value;

/// A value in the words of a script's reply: `win 3`, in plies.
pub fn value_words(value: Value) -> ArrayString<8>
    ensures { result.bytes ≡ value_words value }
{
    match value {
        Value::Win(plies) => counted_words("win ", plies),
        Value::Loss(plies) => counted_words("loss ", plies),
        Value::Draw => words_of("draw"),
    }
}

/// The mark of a move in the words of a script's reply: `dual 21`, or `-` for the root, to which no move leads.
pub fn on_move_text(mark: Option<MoveMark>) -> ArrayString<8>
    ensures { result.bytes ≡ on_move_text mark }
{
    match mark {
        None => words_of("-"),
        Some(MoveMark::Only) => words_of("only"),
        Some(MoveMark::Dual(others)) => counted_words("dual ", others),
        Some(MoveMark::Mistake) => words_of("mistake"),
        Some(MoveMark::Idle) => words_of("idle"),
        Some(MoveMark::Reply) => words_of("reply"),
    }
}

fn words_of(words: &str) -> ArrayString<8>
    requires { length words.now ≤ 8 }
    ensures { result.bytes ≡ words.now }
{
    let mut text = ArrayString::new();
    text.push_str(words);
    text
}

/// A word, and a number after it.
fn counted_words(word: &str, number: u8) -> ArrayString<8>
    requires { length word.now + 3 ≤ 8 }
    ensures { result.bytes ≡ word.now ++ decimal number }
{
    let mut text = words_of(word);
    let mut buffer = Buffer::new();
    text.push_str(buffer.format(number));
    text
}
