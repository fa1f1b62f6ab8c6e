//! The counts of men, and the code of the material.
ghost use Rattle.std.specs.Prelude.{◌≡◌, ◌≤◌, ◌++◌, length, OnOk};
ghost use Rattle.std.specs.List.{flat_map};
ghost use Rattle.study_head.specs.Counts.{count_side, count_kind, digit, king_square, pieces, pawns_and_kings, material_code, counts_words};

use std::alloc::{AllocError, Allocator};
use study_board::{Kind, Man, Position, Side};
use study_text::Text;

/// How many men a side has.
fn count_side(side: Side, men: &[Man]) -> u32
    requires { length men.now ≤ 4 }
    ensures { result ≡ count_side side men.now }
{
    men.iter().filter(|m| m.side == side).count() as u32
}

/// How many men of a kind a side has.
fn count_kind(side: Side, kind: Kind, men: &[Man]) -> u32
    requires { length men.now ≤ 4 }
    ensures count { result ≡ count_kind side kind men.now }
    ensures few { result ≤ 4 }
{
    men.iter().filter(|m| m.is(side, kind)).count() as u32
}

/// One for each of White's men of the kind, and three for each of Black's.
fn add_digit<A: Allocator>(
    text: &mut Text<'_, A>,
    kind: Kind,
    men: &[Man],
) -> Result<(), AllocError>
    requires { length men.now ≤ 4 }
    ensures { OnOk result (text.new ≡ text.old ++ digit kind men.now) }
{
    text.add_number(count_kind(Side::White, kind, men) + 3 * count_kind(Side::Black, kind, men))
}

/// The square of the side's king, if the man is it.
fn add_square<A: Allocator>(text: &mut Text<'_, A>, side: Side, man: &Man) -> Result<(), AllocError>
    ensures { OnOk result (text.new ≡ text.old ++ king_square side man.now) }
{
    if man.is(side, Kind::King) {
        let file = man.at.file();
        let rank = man.at.rank();
        return text.add(&[97 + file, 49 + rank]);
    }
    Ok(())
}

fn add_king<A: Allocator>(text: &mut Text<'_, A>, side: Side, men: &[Man]) -> Result<(), AllocError>
    ensures { OnOk result (text.new ≡ text.old ++ flat_map (king_square side) men.now) }
{
    for man in men {
        add_square(text, side, man)?;
    }
    Ok(())
}

/// Queens, rooks, bishops and knights.
#[tactic(auto, unfolding(crate::specs::Counts::pieces))]
fn add_pieces<A: Allocator>(text: &mut Text<'_, A>, men: &[Man]) -> Result<(), AllocError>
    requires { length men.now ≤ 4 }
    ensures { OnOk result (text.new ≡ text.old ++ pieces men.now) }
{
    add_digit(text, Kind::Queen, men)?;
    add_digit(text, Kind::Rook, men)?;
    add_digit(text, Kind::Bishop, men)?;
    add_digit(text, Kind::Knight, men)
}

/// The pawns of each side, and the squares of the kings.
#[tactic(auto, unfolding(crate::specs::Counts::pawns_and_kings))]
fn add_pawns_and_kings<A: Allocator>(text: &mut Text<'_, A>, men: &[Man]) -> Result<(), AllocError>
    requires { length men.now ≤ 4 }
    ensures { OnOk result (text.new ≡ text.old ++ pawns_and_kings men.now) }
{
    text.add_number(count_kind(Side::White, Kind::Pawn, men))?;
    text.add_number(count_kind(Side::Black, Kind::Pawn, men))?;
    text.add(b" ")?;
    add_king(text, Side::White, men)?;
    add_king(text, Side::Black, men)
}

/// The code of Guy, Blandford and Roycroft, by which databases of studies are searched.
#[tactic(auto, unfolding(crate::specs::Counts::material_code))]
fn add_code<A: Allocator>(text: &mut Text<'_, A>, men: &[Man]) -> Result<(), AllocError>
    requires { length men.now ≤ 4 }
    ensures { OnOk result (text.new ≡ text.old ++ material_code men.now) }
{
    add_pieces(text, men)?;
    text.add(b".")?;
    add_pawns_and_kings(text, men)
}

/// `2 + 2, 0300.10 b6a1`: how many men each side has, the code of the material, and the squares of the kings.
#[tactic(auto, unfolding(crate::specs::Counts::counts_words))]
pub fn add_counts<A: Allocator>(text: &mut Text<'_, A>, p: &Position) -> Result<(), AllocError>
    ensures { OnOk result (text.new ≡ text.old ++ counts_words p.now.men) }
{
    let men = p.men();
    text.add_number(count_side(Side::White, men))?;
    text.add(b" + ")?;
    text.add_number(count_side(Side::Black, men))?;
    text.add(b", ")?;
    add_code(text, men)
}
