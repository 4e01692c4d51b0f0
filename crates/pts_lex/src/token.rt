//! The first token of a text.

ghost use Rattle.std.specs.Prelude.{◌≡◌, ◌+◌, ◌-◌, ◌*◌, ◌^◌, ◌<◌, ◌≤◌, ◌↔◌, length, map, false, ℕ, List, IfErr, IfOk, IfSome};
ghost use Rattle.std.specs.List.{prefix_len};
ghost use Rattle.std.specs.Option.{SomeIff};
ghost use Rattle.pts_lex.specs.Lexical as lexical;
ghost use Rattle.pts_lex.specs.Scanning as spec;

use std::alloc::{AllocFailed, Global};
use thiserror::Error;

/// What a token is. A number has its value.
#[derive(Clone, Copy, Debug, PartialEq, Eq)]
pub enum TokenKind {
    Word,
    Name,
    Number(u64),
    Symbol,
}

/// A token from the byte at `start` up to the byte before `end`.
#[derive(Clone, Copy, Debug, PartialEq, Eq)]
pub struct Token {
    pub kind: TokenKind,
    pub start: usize,
    pub end: usize,
}

/// Why a text has no tokens.
#[derive(Clone, Copy, Debug, PartialEq, Eq, Error)]
pub enum LexFault {
    /// The place of a byte that begins no token.
    #[error("no token begins at byte {0}")]
    Byte(usize),
    /// The place of a number above 18446744073709551615.
    #[error("the number at byte {0} is above 18446744073709551615")]
    Number(usize),
    #[error("there is no memory")]
    NoMemory,
}

impl From<AllocFailed<Token>> for LexFault {
    ghost use Rattle.std.specs.Prelude.{◌≡◌};
    ghost use Rattle.pts_lex.specs.declared.token.LexFault.TheVariants as faults;

    ghost from_gives = { λ _ fault. fault ≡ faults.NoMemory };

    fn from(_: AllocFailed<Token>) -> Self {
        LexFault::NoMemory
    }
}

/// The names that are words of the language.
const WORDS: [&[u8]; 54] = [
    b"pts",
    b"const",
    b"array",
    b"fn",
    b"list",
    b"fill",
    b"iota",
    b"step",
    b"mix",
    b"i64",
    b"u64",
    b"bool",
    b"true",
    b"false",
    b"if",
    b"then",
    b"else",
    b"throw",
    b"seq",
    b"par",
    b"par_unseq",
    b"unseq",
    b"vec",
    b"for_each",
    b"transform",
    b"find_if",
    b"count_if",
    b"reduce",
    b"transform_reduce",
    b"inclusive_scan",
    b"exclusive_scan",
    b"transform_inclusive_scan",
    b"transform_exclusive_scan",
    b"for_loop",
    b"task_block",
    b"print",
    b"init",
    b"into",
    b"to",
    b"as",
    b"induct",
    b"identity",
    b"let",
    b"vec_off",
    b"ordered",
    b"run",
    b"wait",
    b"plus",
    b"multiplies",
    b"bit_and",
    b"bit_or",
    b"bit_xor",
    b"min",
    b"max",
];

fn is_white(b: u8) -> bool
    ensures { result ≡ lexical.is_white b }
{
    matches!(b, b' ' | b'\t' | b'\n' | b'\r')
}

fn is_letter(b: u8) -> bool
    ensures { result ≡ lexical.is_letter b }
{
    matches!(b, b'a'..=b'z' | b'A'..=b'Z' | b'_')
}

fn is_digit(b: u8) -> bool
    ensures { result ≡ lexical.is_digit b }
{
    matches!(b, b'0'..=b'9')
}

fn is_letter_or_digit(b: u8) -> bool
    ensures { result ≡ lexical.is_letter_or_digit b }
{
    is_letter(b) || is_digit(b)
}

fn is_single(b: u8) -> bool
    ensures { result ≡ spec.is_single b }
{
    matches!(
        b,
        b';' | b':'
            | b','
            | b'='
            | b'('
            | b')'
            | b'['
            | b']'
            | b'{'
            | b'}'
            | b'+'
            | b'-'
            | b'*'
            | b'/'
            | b'%'
            | b'&'
            | b'|'
            | b'^'
            | b'!'
            | b'<'
            | b'>'
    )
}

fn is_double(a: u8, b: u8) -> bool
    ensures { result ≡ spec.is_double a b }
{
    match b {
        b'=' => matches!(
            a,
            b'~' | b'+' | b'-' | b'*' | b'&' | b'|' | b'^' | b'=' | b'!' | b'<' | b'>'
        ),
        b'>' => a == b'-',
        b'.' => a == b'.',
        b'&' => a == b'&',
        b'|' => a == b'|',
        _ => false,
    }
}

fn symbol_len(bytes: &[u8]) -> usize
    ensures value { result ≡ spec.symbol_len bytes.now }
    ensures within { result ≤ length bytes.now }
{
    match bytes {
        [a, b, ..] if is_double(*a, *b) => 2,
        [a, ..] if is_single(*a) => 1,
        _ => 0,
    }
}

fn blank_len(bytes: &[u8]) -> usize
    ensures value { result ≡ spec.blank_len false bytes.now }
    ensures within { result ≤ length bytes.now }
{
    let mut is_comment = false;
    for (at, b) in bytes.iter().enumerate() {
        if is_comment {
            is_comment = *b != b'\n';
        } else if *b == b'#' {
            is_comment = true;
        } else if !is_white(*b) {
            return at;
        }
    }
    bytes.len()
}

// The length of the longest front of bytes that pass.
fn letters_len(bytes: &[u8]) -> usize
    ensures value { result ≡ prefix_len lexical.is_letter_or_digit bytes.now }
    ensures within { result ≤ length bytes.now }
{
    bytes.iter().take_while(|b| is_letter_or_digit(**b)).count()
}

fn digits_len(bytes: &[u8]) -> usize
    ensures value { result ≡ prefix_len lexical.is_digit bytes.now }
    ensures within { result ≤ length bytes.now }
{
    bytes.iter().take_while(|b| is_digit(**b)).count()
}

fn lexeme_len(bytes: &[u8]) -> usize
    ensures value { result ≡ spec.lexeme_len bytes.now }
    ensures within { result ≤ length bytes.now }
{
    match bytes {
        [] => 0,
        [b, rest @ ..] if is_letter(*b) => 1 + letters_len(rest),
        [b, rest @ ..] if is_digit(*b) => 1 + digits_len(rest),
        _ => symbol_len(bytes),
    }
}

fn is_among(mut texts: &[&[u8]], text: &[u8]) -> bool
    ensures { result ≡ lexical.is_among (map (λ t. t.now) texts.entry.now) text.now }
{
    while let [first, rest @ ..] = texts {
        if *first == text {
            return true;
        }
        texts = rest;
    }
    false
}

#[tactic(auto, unfolding(crate::specs::Lexical::words))]
fn is_word(text: &[u8]) -> bool
    ensures { result ≡ lexical.is_among lexical.words text.now }
{
    is_among(&WORDS, text)
}

#[tactic(auto, using(crate::proofs::Numerals::too_great, crate::proofs::Numerals::all_read))]
fn number_of(digits: &[u8]) -> Option<u64>
    ensures { SomeIff result (lexical.number_of digits.now < 2 ^ 64) (lexical.number_of digits.now) }
{
    let mut number: u64 = 0;
    for digit in digits {
        number = number
            .checked_mul(10)?
            .checked_add(u64::from(digit.saturating_sub(b'0')))?;
    }
    Some(number)
}

#[tactic(auto, unfolding(crate::specs::Scanning::kind_of))]
fn kind_of(text: &[u8]) -> Option<TokenKind>
    ensures { result ≡ spec.kind_of text.now }
{
    let first = text.first()?;
    if is_letter(*first) {
        return Some(if is_word(text) {
            TokenKind::Word
        } else {
            TokenKind::Name
        });
    }
    if is_digit(*first) {
        return Some(TokenKind::Number(number_of(text)?));
    }
    Some(TokenKind::Symbol)
}

// `first_token` by the steps that it takes.
#[tactic(auto, unfolding(crate::specs::Scanning::scan))]
fn scan(bytes: &[u8]) -> Result<Option<Token>, LexFault>
    ensures value { result ≡ spec.scan bytes.now }
    ensures ordered { IfOk result (λ found. IfSome found (λ t. t.start ≤ t.end)) }
    ensures within { IfOk result (λ found. IfSome found (λ t. t.end ≤ length bytes.now)) }
{
    let start = blank_len(bytes);
    let text = &bytes[start..];
    if text.is_empty() {
        return Ok(None);
    }
    let len = lexeme_len(text);
    if len == 0 {
        return Err(LexFault::Byte(start));
    }
    match kind_of(&text[..len]) {
        Some(kind) => Ok(Some(Token {
            kind,
            start,
            end: start + len,
        })),
        None => Err(LexFault::Number(start)),
    }
}

/// The first token of a text. `None` comes exactly where white space and comments are all there is. A fault comes where
/// behind these a byte begins no token, or where a number above 18446744073709551615 stands.
pub fn first_token(bytes: &[u8]) -> Result<Option<Token>, LexFault>
    ensures token { IfOk result (λ found. IfSome found (lexical.IsFirstToken bytes.now)) }
    ensures none { (result ≡ Ok None) ↔ lexical.IsBlank bytes.now }
    ensures fault { IfErr result (lexical.IsLexFault bytes.now) }
{
    scan(bytes)
}

// A fault of a text that begins at this place.
fn moved_fault(at: usize, fault: LexFault) -> LexFault
    requires { lexical.FitsBehind at fault }
    ensures { result ≡ lexical.moved_fault at fault }
{
    match fault {
        LexFault::Byte(place) => LexFault::Byte(at + place),
        LexFault::Number(place) => LexFault::Number(at + place),
        LexFault::NoMemory => LexFault::NoMemory,
    }
}

/// The tokens of a text, each as long as possible. `Byte` and `Number` come exactly where one of these faults stands in the
/// text, with the least place of one. Places are counted in bytes from 0.
#[tactic(auto, using(crate::proofs::TokenLists::reading))]
pub fn tokens(alloc: Global, bytes: &[u8]) -> Result<Vec<Token>, LexFault>
    ensures tokens { IfOk result (λ found. lexical.Lexes bytes.now found.items) }
    ensures fault { IfErr result (lexical.Explains bytes.now) }
{
    let mut found = Vec::new(alloc);
    let mut at = 0;
    loop {
        match first_token(&bytes[at..]) {
            Ok(Some(token)) => {
                let (start, end) = (at + token.start, at + token.end);
                let kind = token.kind;
                found.push(Token { kind, start, end })?;
                at = end;
            }
            Ok(None) => return Ok(found),
            Err(fault) => return Err(moved_fault(at, fault)),
        }
    }
}

/// A law: a text has at most one list of tokens.
pub fn one_token_list()
    ensures { (bytes : List ℕ) (some others : List Token) → lexical.Lexes bytes some → lexical.Lexes bytes others → some ≡ others }
{}

/// A law: a text that has tokens has no fault, and a text has one first fault.
pub fn tokens_or_one_fault()
    ensures tokens { (bytes : List ℕ) (some : List Token) (fault : LexFault) → lexical.Lexes bytes some → lexical.IsFirstFault bytes fault → ⊥ }
    ensures fault { (bytes : List ℕ) (one other : LexFault) → lexical.IsFirstFault bytes one → lexical.IsFirstFault bytes other → one ≡ other }
{}

#[cfg(test)]
mod tests {
    use super::*;
    use std::test::Fail;

    #[test]
    fn takes_the_longest_token(rt: HostRuntime) {
        let table: [(&[u8], Result<Option<(TokenKind, usize, usize)>, LexFault>); 16] = [
            (b"", Ok(None)),
            (b" \t\r\n# to the end", Ok(None)),
            (b"# one\n two", Ok(Some((TokenKind::Name, 7, 10)))),
            (b"par_unseq", Ok(Some((TokenKind::Word, 0, 9)))),
            (b"par_unseqs", Ok(Some((TokenKind::Name, 0, 10)))),
            (b"_a1-", Ok(Some((TokenKind::Name, 0, 3)))),
            (b"12ab", Ok(Some((TokenKind::Number(12), 0, 2)))),
            (
                b"0018446744073709551615",
                Ok(Some((TokenKind::Number(18_446_744_073_709_551_615), 0, 22))),
            ),
            (b" 18446744073709551616", Err(LexFault::Number(1))),
            (b"->", Ok(Some((TokenKind::Symbol, 0, 2)))),
            (b"- >", Ok(Some((TokenKind::Symbol, 0, 1)))),
            (b"..1", Ok(Some((TokenKind::Symbol, 0, 2)))),
            (b".", Err(LexFault::Byte(0))),
            (b" ~", Err(LexFault::Byte(1))),
            (b"&&&", Ok(Some((TokenKind::Symbol, 0, 2)))),
            (b"\xff", Err(LexFault::Byte(0))),
        ];
        for (text, wanted) in table {
            let found = first_token(text).map(|token| token.map(|t| (t.kind, t.start, t.end)));
            assert_eq!(rt; found, wanted);
        }
    }

    #[test]
    fn takes_all_tokens_or_the_first_fault(rt: HostRuntime) -> Result<(), Fail> {
        let word = |start, end| Token {
            kind: TokenKind::Word,
            start,
            end,
        };
        let semicolon = Token {
            kind: TokenKind::Symbol,
            start: 5,
            end: 6,
        };
        let one = Token {
            kind: TokenKind::Number(1),
            start: 4,
            end: 5,
        };
        let found = tokens(rt.alloc(), b"pts 1;# end")?;
        assert_eq!(rt; found.as_slice(), [word(0, 3), one, semicolon].as_slice());
        assert!(rt; tokens(rt.alloc(), b" # nothing")?.is_empty());
        let table: [(&[u8], LexFault); 4] = [
            (b"pts 1; ) @", LexFault::Byte(9)),
            (b"a . b ~", LexFault::Byte(2)),
            (b"1 18446744073709551616 @", LexFault::Number(2)),
            (b"\n@ 18446744073709551616", LexFault::Byte(1)),
        ];
        for (text, fault) in table {
            assert_eq!(rt; tokens(rt.alloc(), text).err(), Some(fault));
        }
        Ok(())
    }
}
