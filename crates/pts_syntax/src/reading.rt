//! Reading a script from its bytes.

ghost use Rattle.std.specs.Prelude.{◌≡◌, ℕ, List, IfErr, IfOk};
ghost use Rattle.pts_lex.specs.Lexical as lexical;
ghost use Rattle.pts_lex.specs.Lexical.{Lexes};
ghost use Rattle.pts_syntax.specs.Syntax.{Explains, IsParsed};

use crate::signs::{place, signs};
use pts_lex::{LexFault, Token, tokens};
use pts_parse::{Stop, parse_signs};
use pts_tree::Script;
use std::alloc::Global;

/// Why a text is no script.
#[derive(Clone, Copy, Debug, PartialEq, Eq)]
pub enum SyntaxKind {
    /// No token begins at this byte.
    Byte,
    /// The number that begins at this byte is above 18446744073709551615.
    Number,
    /// With the token that begins at this byte the text begins no script, or it ends there and is none.
    Unexpected,
    /// The token that begins at this byte opens a 65th bracket.
    Nesting,
    NoMemory,
}

impl SyntaxKind {
    ghost use Rattle.std.specs.Prelude.{◌≡◌};
    ghost use Rattle.pts_syntax.specs.KindNames as spec;

    /// The name of the fault, as the line of a refusal has it.
    pub fn name(self) -> &'static str
        ensures { result.now ≡ spec.kind_name self }
    {
        match self {
            SyntaxKind::Byte => "byte",
            SyntaxKind::Number => "number",
            SyntaxKind::Unexpected => "syntax",
            SyntaxKind::Nesting => "nesting",
            SyntaxKind::NoMemory => "no_memory",
        }
    }
}

/// Why a text is no script, and where, in bytes from 0 on. For want of memory the place is 0.
#[derive(Clone, Copy, Debug, PartialEq, Eq)]
pub struct SyntaxFault {
    pub at: usize,
    pub kind: SyntaxKind,
}

fn no_memory() -> SyntaxFault
    ensures { result ≡ record { at = 0; kind = SyntaxKind.NoMemory } }
{
    SyntaxFault {
        at: 0,
        kind: SyntaxKind::NoMemory,
    }
}

fn lexical(fault: LexFault) -> SyntaxFault
    ensures { (bytes : List ℕ) → lexical.Explains bytes fault → Explains bytes result }
{
    match fault {
        LexFault::Byte(at) => SyntaxFault {
            at,
            kind: SyntaxKind::Byte,
        },
        LexFault::Number(at) => SyntaxFault {
            at,
            kind: SyntaxKind::Number,
        },
        LexFault::NoMemory => no_memory(),
    }
}

// The script that the tokens of a text spell.
#[tactic(auto, using(crate::proofs::TokenPlaces::tokens_lie, crate::proofs::Answering::answering))]
fn parse_tokens(alloc: Global, bytes: &[u8], tokens: &[Token]) -> Result<Script, SyntaxFault>
    requires { Lexes bytes.now tokens.now }
    ensures script { IfOk result (IsParsed bytes.now) }
    ensures fault { IfErr result (Explains bytes.now) }
{
    let Ok(signs) = signs(alloc, bytes, tokens) else {
        return Err(no_memory());
    };
    match parse_signs(alloc, &signs) {
        Ok(script) => Ok(script),
        Err(Stop::Unexpected(left)) => Err(SyntaxFault {
            at: place(bytes, tokens, left),
            kind: SyntaxKind::Unexpected,
        }),
        Err(Stop::Nesting(left)) => Err(SyntaxFault {
            at: place(bytes, tokens, left),
            kind: SyntaxKind::Nesting,
        }),
        Err(Stop::NoMemory) => Err(no_memory()),
    }
}

/// The script that the bytes spell, with at most 64 brackets open at once. A lexical fault comes before any other, and
/// the least place of one is named.
pub fn parse(alloc: Global, bytes: &[u8]) -> Result<Script, SyntaxFault>
    ensures script { IfOk result (IsParsed bytes.now) }
    ensures fault { IfErr result (Explains bytes.now) }
{
    match tokens(alloc, bytes) {
        Ok(tokens) => parse_tokens(alloc, bytes, &tokens),
        Err(fault) => Err(lexical(fault)),
    }
}
