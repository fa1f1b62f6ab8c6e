//! The position after a move, and positions of at most four men.
ghost use Rattle.std.specs.Prelude.{◌≡◌, true};
ghost use Rattle.study_wide.specs.Wide.{IsWide};
ghost use Rattle.study_wide.specs.Rules.{is_wide_legal, wide_after, narrow, widen};

use crate::castling::men_after_castling;
use crate::legal::{men_after, wing_of};
use crate::wide::copied_men;
use crate::{Rights, WidePosition};
use study_board::Position;
use study_moves::{Move, passed_by};

/// The position after a legal move.
#[tactic(auto, unfolding(crate::specs::Rules::wide_after))]
pub fn played(p: &WidePosition, m: Move) -> WidePosition
    requires { is_wide_legal p.now m ≡ true }
    ensures value { result ≡ wide_after p.now m }
    ensures valid { IsWide result }
{
    let side = p.to_move();
    let all = p.men();
    let rights = p.rights().after(m);
    match wing_of(p, &m) {
        Some(wing) => WidePosition::of(
            men_after_castling(all, side, wing),
            side.other(),
            None,
            rights,
        ),
        None => match p.man_at(m.origin) {
            None => unreachable!(),
            Some(man) => {
                let men = men_after(p, &man, &m);
                WidePosition::of(men, side.other(), passed_by(&man, m.target), rights)
            }
        },
    }
}

/// The position of at most four men without a right to castle, if this is one.
#[tactic(auto, unfolding(crate::specs::Rules::is_small))]
pub fn narrow(p: &WidePosition) -> Option<Position>
    ensures { result ≡ narrow p.now }
{
    if p.men().len() <= 4 && !p.rights().any() {
        Some(Position::of(copied_men(p.men()), p.to_move(), p.passed()))
    } else {
        None
    }
}

/// The same position, with no right to castle.
pub fn widen(p: &Position) -> WidePosition
    ensures value { result ≡ widen p.now }
    ensures valid { IsWide result }
{
    WidePosition::of(copied_men(p.men()), p.to_move(), p.passed(), Rights::none())
}
