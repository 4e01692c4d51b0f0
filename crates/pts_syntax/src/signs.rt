//! The signs that the tokens of a text say.

ghost use Rattle.std.specs.Prelude.{◌≡◌, ◌≢◌, ◌≤◌, length, All, IfNone, IfOk, IfSome};
ghost use Rattle.pts_tree.specs.declared.mark.Mark as marks;
ghost use Rattle.pts_tree.specs.Marks.{text_of};
ghost use Rattle.pts_syntax.specs.Syntax.{AllSay, Says, place_of};
ghost use Rattle.pts_syntax.specs.TokenTexts.{IsTokenOf};

use pts_lex::{Token, TokenKind};
use pts_tree::{Mark, Name, Sign};
use std::alloc::{AllocError, Global};

// The word or symbol with this text, where there is one. Symbols of one byte, which are most of a text, come first.
#[tactic(auto, unfolding(pts_tree::specs::Marks::text_of))]
fn mark_of(text: &[u8]) -> Option<Mark>
    ensures some { IfSome result (λ m. text.now ≡ text_of m) }
    ensures none { IfNone result ((m : marks.Mark) → text.now ≢ text_of m) }
{
    match text {
        [b';'] => Some(Mark::Semicolon),
        [b':'] => Some(Mark::Colon),
        [b','] => Some(Mark::Comma),
        [b'='] => Some(Mark::Equal),
        [b'('] => Some(Mark::OpenParen),
        [b')'] => Some(Mark::CloseParen),
        [b'['] => Some(Mark::OpenBracket),
        [b']'] => Some(Mark::CloseBracket),
        [b'{'] => Some(Mark::OpenBrace),
        [b'}'] => Some(Mark::CloseBrace),
        [b'+'] => Some(Mark::PlusSign),
        [b'-'] => Some(Mark::MinusSign),
        [b'*'] => Some(Mark::Star),
        [b'/'] => Some(Mark::Slash),
        [b'%'] => Some(Mark::Percent),
        [b'&'] => Some(Mark::Ampersand),
        [b'|'] => Some(Mark::Bar),
        [b'^'] => Some(Mark::Caret),
        [b'!'] => Some(Mark::Exclamation),
        [b'<'] => Some(Mark::Less),
        [b'>'] => Some(Mark::Greater),
        _ => Mark::of_text(text),
    }
}

// What the token says.
#[tactic(auto, using(crate::proofs::Ascii::name_text, crate::proofs::MarkTexts::no_mark))]
fn sign(alloc: Global, bytes: &[u8], token: Token) -> Result<Sign, AllocError>
    requires { IsTokenOf bytes.now token }
    ensures { IfOk result (Says bytes.now token) }
{
    let text = &bytes[token.start..token.end];
    match token.kind {
        TokenKind::Number(value) => Ok(Sign::from_number(value)),
        TokenKind::Name => match str::from_utf8(text) {
            Ok(text) => Ok(Sign::from_name(Name::new(text.to_string(alloc)?))),
            Err(_) => unreachable!(),
        },
        TokenKind::Word | TokenKind::Symbol => match mark_of(text) {
            Some(mark) => Ok(Sign::from_mark(mark)),
            None => unreachable!(),
        },
    }
}

/// What each of the tokens says.
#[tactic(auto, using(crate::proofs::TokenPlaces::saying))]
pub fn signs(alloc: Global, bytes: &[u8], tokens: &[Token]) -> Result<Vec<Sign>, AllocError>
    requires { All (IsTokenOf bytes.now) tokens.now }
    ensures { IfOk result (λ found. AllSay bytes.now tokens.now found.items) }
{
    let mut found = Vec::new(alloc);
    for token in tokens {
        found.push(sign(alloc, bytes, *token)?)?;
    }
    Ok(found)
}

/// Where the first of the last `left` tokens begins; the length of the text where none is left.
pub fn place(bytes: &[u8], tokens: &[Token], left: usize) -> usize
    requires { left ≤ length tokens.now }
    ensures { result ≡ place_of bytes.now tokens.now left }
{
    match tokens.get(tokens.len() - left) {
        Some(token) => token.start,
        None => bytes.len(),
    }
}
