//! Paths, read from a line.
ghost use Rattle.std.specs.Prelude.{◌≡◌, ◌<◌, ◌++◌, ◌∷◌, [], true, false, length, map, IfOk, IsOk, IfSome, MatchOption, OnOk};
ghost use Rattle.std.specs.List.{list_all};
ghost use Rattle.std.specs.Str.Parse.{digits_value};
ghost use Rattle.study_command.specs.Paths.{is_place, is_path_word, places_in, steps_of};

use crate::path_text::read_place;
use std::alloc::{AllocError, Allocator};
use study_tree::Path;

/// The path that the word spells. The path of the root takes no memory.
pub fn read_path<'a, A: Allocator>(alloc: &'a A, path: &[u8]) -> Result<Path<'a, A>, AllocError>
    requires { is_path_word path.now ≡ true }
    ensures path { IfOk result (λ p. p ≡ steps_of path.now) }
    ensures root { steps_of path.now ≡ [] → IsOk result }
{
    if is_root(path) {
        Ok(Path::root(alloc))
    } else {
        read_places(alloc, path)
    }
}

/// Whether the word is `root` rather than child places.
fn is_root(path: &[u8]) -> bool
    requires { is_path_word path.now ≡ true }
    ensures root { result ≡ true → steps_of path.now ≡ [] }
    ensures places { result ≡ false
        → steps_of path.now ≡ map (digits_value 10) (places_in path.now) }
    ensures form { result ≡ false → list_all is_place (places_in path.now) ≡ true }
{
    path == b"root".as_slice()
}

/// Child places joined by `.`.
fn read_places<'a, A: Allocator>(alloc: &'a A, path: &[u8]) -> Result<Path<'a, A>, AllocError>
    requires { list_all is_place (places_in path.now) ≡ true }
    ensures { IfOk result (λ p. p ≡ map (digits_value 10) (places_in path.now)) }
{
    let mut found = Path::root(alloc);
    let mut rest = path;
    loop {
        let (part, behind) = split_first_place(rest);
        push_place(&mut found, part)?;
        match behind {
            Some(more) => rest = more,
            None => return Ok(found),
        }
    }
}

/// The part before the first point, and the rest.
fn split_first_place(word: &[u8]) -> (&[u8], Option<&[u8]>)
    ensures cut { MatchOption result.1 (places_in word.now ≡ result.0.now ∷ []) (λ more.
        places_in word.now ≡ result.0.now ∷ places_in more.now) }
    ensures shorter { IfSome result.1 (λ more. length more.now < length word.now) }
{
    for i in 0..word.len() {
        if word[i] == b'.' {
            return (&word[..i], Some(&word[i + 1..]));
        }
    }
    (word, None)
}

/// Extends the path to the child whose place is written.
fn push_place<'a, A: Allocator>(found: &mut Path<'a, A>, part: &[u8]) -> Result<(), AllocError>
    requires { is_place part.now ≡ true }
    ensures { OnOk result (found.new ≡ found.old ++ digits_value 10 part.now ∷ []) }
{
    let Some(place) = read_place(part) else {
        unreachable!()
    };
    found.push(place)
}
