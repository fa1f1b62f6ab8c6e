//! The least number of the men that a number encodes, by its squares in base 64.
ghost use Rattle.std.specs.Prelude.{◌≡◌, ◌<◌, ◌≤◌, ◌+◌, ◌*◌};
ghost use Rattle.study_index.specs.Decoded.{head};
ghost use Rattle.study_index.specs.LeastImage.{file_and_rank_swapped, with_squares_transposed, exchange_last_two, ascending_if, is_on_diagonal, least_image};

use crate::decoding::{Slot, head};

/// A square with its file and its rank exchanged.
#[inline]
fn file_and_rank_swapped(square: u32) -> u32
    requires { square < 64 }
    ensures value { result ≡ file_and_rank_swapped square }
    ensures small { result < 64 }
{
    8 * (square % 8) + square / 8
}

/// The number with each square after the first so exchanged.
#[inline]
#[tactic(auto, unfolding(crate::specs::LeastImage::with_squares_transposed))]
fn with_squares_transposed(slots: &[Slot], n: u32) -> u32
    requires { n < 67108864 }
    ensures value { result ≡ with_squares_transposed slots.now n }
    ensures small { result ≤ n + 266304 }
{
    match slots {
        [_, _] => n / 64 * 64 + file_and_rank_swapped(n % 64),
        [_, _, _] => (n / 64 / 64 * 64 + file_and_rank_swapped(n / 64 % 64)) * 64
            + file_and_rank_swapped(n % 64),
        [_, _, _, _] => {
            let black = n / 64 / 64 / 64 * 64 + file_and_rank_swapped(n / 64 / 64 % 64);
            (black * 64 + file_and_rank_swapped(n / 64 % 64)) * 64 + file_and_rank_swapped(n % 64)
        }
        _ => n,
    }
}

/// The number with the last two squares exchanged.
#[inline]
#[tactic(auto, unfolding(crate::specs::LeastImage::exchange_last_two))]
fn exchange_last_two(n: u32) -> u32
    ensures { result ≡ exchange_last_two n }
{
    (n / 64 / 64 * 64 + n % 64) * 64 + n / 64 % 64
}

/// The number with the last two squares in ascending order, if they are squares of like men.
#[inline]
#[tactic(auto, unfolding(crate::specs::LeastImage::ascending_if))]
fn ascending_if(like: bool, n: u32) -> u32
    ensures { result ≡ ascending_if like n }
{
    if like && n % 64 < n / 64 % 64 {
        exchange_last_two(n)
    } else {
        n
    }
}

/// Whether the place is that of a1, b2, c3 or d4.
#[inline]
pub fn is_on_diagonal(place: u32) -> bool
    ensures { result ≡ is_on_diagonal place }
{
    place == 0 || place == 4 || place == 7 || place == 9
}

/// The canonical number of the men that a number encodes.
#[inline(always)]
#[tactic(auto, unfolding(crate::specs::LeastImage::least_image))]
pub fn least_image(pawns: bool, like: bool, slots: &[Slot], n: u32) -> u32
    requires { n < 67108864 }
    ensures { result ≡ least_image pawns like slots.now n }
{
    let least = ascending_if(like, n);
    if !pawns && is_on_diagonal(head(slots, n) % 10) {
        let other = ascending_if(like, with_squares_transposed(slots, n));
        if other < least { other } else { least }
    } else {
        least
    }
}
