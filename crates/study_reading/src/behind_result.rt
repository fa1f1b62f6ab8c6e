//! Moves behind the result of a game.
ghost use Rattle.std.specs.Prelude.{◌≡◌};
ghost use Rattle.study_games.specs.Tokens.{without_first, token_seen};
ghost use Rattle.study_reading.specs.Behind.{begins_square, names_square, is_said_move, is_of_moves, behind_fault, moves_in};

use study_games::{Run, Said, Token, TokenFault, begins_feed, cut_run, read_token, say};

fn begins_square(text: &[u8]) -> bool
    ensures { result ≡ begins_square text.now }
{
    match text {
        [file, rank, ..] => b'a' <= *file && *file <= b'h' && b'1' <= *rank && *rank <= b'8',
        _ => false,
    }
}

fn names_square(symbol: &[u8]) -> bool
    ensures { result ≡ names_square symbol.now }
{
    let mut rest = symbol;
    while let [_, more @ ..] = rest {
        if begins_square(rest) {
            return true;
        }
        rest = more;
    }
    false
}

fn is_said_move(symbol: &[u8], said: Said) -> bool
    ensures { result ≡ is_said_move symbol.now said }
{
    match said {
        Said::NullMove => true,
        Said::Move => names_square(symbol),
        _ => false,
    }
}

/// Whether a token is a move, a null move or a parenthesis.
fn is_of_moves(token: Token<'_>) -> bool
    ensures { result ≡ is_of_moves (token_seen token.entry) }
{
    match token {
        Token::Open | Token::Close => true,
        Token::Sign(text) => text == b"--".as_slice(),
        Token::Symbol(text) => is_said_move(text, say(text)),
        _ => false,
    }
}

/// The text without its first byte.
pub fn without_first(text: &[u8]) -> &[u8]
    ensures { result.now ≡ without_first text.now }
{
    match text {
        [_, rest @ ..] => rest,
        [] => text,
    }
}

/// The text to go on with where no token begins.
fn behind_fault(fault: TokenFault, text: &[u8]) -> &[u8]
    ensures { result.now ≡ behind_fault fault text.now }
{
    match fault {
        TokenFault::OpenComment => b"",
        TokenFault::OpenString => {
            let (_, behind) = cut_run(Run::Line, without_first(text));
            behind
        }
        _ => without_first(text),
    }
}

/// The number of bytes from the first move or parenthesis on, in a text that does not begin a line.
#[tactic(auto, unfolding(crate::specs::Behind::moves_in))]
pub fn moves_in(text: &[u8]) -> Option<usize>
    ensures { result ≡ moves_in text.now }
{
    let mut rest = text;
    let mut fresh = false;
    let mut fuel = text.len();
    while fuel > 0 {
        let Some(found) = read_token(rest, fresh) else {
            break;
        };
        let behind = match found {
            Err(fault) => behind_fault(fault, rest),
            Ok(cut) => {
                if is_of_moves(cut.token) {
                    return Some(rest.len());
                }
                cut.rest
            }
        };
        fresh = begins_feed(rest);
        rest = behind;
        fuel -= 1;
    }
    None
}
