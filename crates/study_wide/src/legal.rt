//! Which moves are legal.
ghost use Rattle.std.specs.Prelude.{◌≡◌, true, Some};
ghost use Rattle.study_board.specs.Position.{is_occupied, man_at, in_check};
ghost use Rattle.study_moves.specs.Rules.{is_pseudo_legal, is_legal_for, is_legal as is_plain, men_after};
ghost use Rattle.study_wide.specs.Rules.{castles, wing_of, is_wide_legal};

use crate::castling::{can_castle, is_castling_move};
use crate::{MAX_MEN, WidePosition, Wing};
use arrayvec::ArrayVec;
use study_board::{Man, in_check};
use study_moves::{
    Move, has_side, is_promotion_choice, men_with_moved, moved_man, reaches_last_rank,
    reaches_target,
};

/// The men after a move of this man.
#[tactic(auto, unfolding(study_moves::specs::Rules::men_after))]
pub fn men_after(p: &WidePosition, man: &Man, m: &Move) -> ArrayVec<Man, MAX_MEN>
    requires { is_occupied p.now.board.men man.now.at ≡ true }
    ensures { result.items ≡ men_after p.now.board man.now m.now }
{
    men_with_moved(p.men(), p.passed(), man, moved_man(man, m))
}

#[tactic(auto, unfolding(study_moves::specs::Rules::is_pseudo_legal))]
fn is_pseudo_legal(p: &WidePosition, man: &Man, m: &Move) -> bool
    ensures { result ≡ is_pseudo_legal p.now.board man.now m.now }
{
    let men = p.men();
    let side = p.to_move();
    man.side == side
        && reaches_target(men, p.passed(), man, m.target)
        && !has_side(men, side, m.target)
        && is_promotion_choice(reaches_last_rank(man, m.target), m.promoted)
}

#[tactic(auto, unfolding(study_moves::specs::Rules::is_legal_for))]
fn is_legal_for(p: &WidePosition, man: &Man, m: &Move) -> bool
    requires { is_occupied p.now.board.men man.now.at ≡ true }
    ensures { result ≡ is_legal_for p.now.board man.now m.now }
{
    is_pseudo_legal(p, man, m) && !in_check(men_after(p, man, m).as_slice(), p.to_move())
}

/// Whether the move is one man's and legal: castling is left out.
#[tactic(auto, unfolding(study_moves::specs::Rules::is_legal))]
pub fn is_plain_move(p: &WidePosition, m: &Move) -> bool
    ensures { result ≡ is_plain p.now.board m.now }
{
    let _target = m.target.number();
    match p.man_at(m.origin) {
        None => false,
        Some(man) => is_legal_for(p, &man, m),
    }
}

fn castles(p: &WidePosition, m: &Move, wing: Wing) -> bool
    ensures { result ≡ castles p.now m.now wing }
{
    is_castling_move(p.to_move(), wing, m) && can_castle(p, wing)
}

/// The wing to which the move castles.
pub fn wing_of(p: &WidePosition, m: &Move) -> Option<Wing>
    ensures { result ≡ wing_of p.now m.now }
{
    if castles(p, m, Wing::Short) {
        Some(Wing::Short)
    } else if castles(p, m, Wing::Long) {
        Some(Wing::Long)
    } else {
        None
    }
}

#[tactic(auto, unfolding(crate::specs::Rules::is_wide_legal))]
pub fn allows(p: &WidePosition, m: &Move) -> bool
    ensures { result ≡ is_wide_legal p.now m.now }
{
    wing_of(p, m).is_some() || is_plain_move(p, m)
}

/// Whether the move is legal; castling is the king's move of two squares.
pub fn is_legal(p: &WidePosition, m: Move) -> bool
    ensures { result ≡ is_wide_legal p.now m }
{
    allows(p, &m)
}
