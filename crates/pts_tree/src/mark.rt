//! The words and symbols of the language.

ghost use Rattle.std.specs.Prelude.{◌≡◌, ◌≢◌, IfSome, IfNone};
ghost use Rattle.pts_tree.specs.Marks.{text_of};

/// A word or symbol of the language.
#[derive(Clone, Copy, Debug, PartialEq, Eq, Hash)]
pub enum Mark {
    Pts,
    Const,
    Array,
    Function,
    List,
    Fill,
    Iota,
    Step,
    Mix,
    I64,
    U64,
    Bool,
    True,
    False,
    If,
    Then,
    Else,
    Throw,
    Seq,
    Par,
    ParUnseq,
    Unseq,
    Vector,
    ForEach,
    Transform,
    FindIf,
    CountIf,
    Reduce,
    TransformReduce,
    InclusiveScan,
    ExclusiveScan,
    TransformInclusiveScan,
    TransformExclusiveScan,
    ForLoop,
    TaskBlock,
    Print,
    Init,
    Into,
    To,
    As,
    Induct,
    Identity,
    Let,
    VecOff,
    Ordered,
    Run,
    Wait,
    Plus,
    Multiplies,
    BitAnd,
    BitOr,
    BitXor,
    Min,
    Max,
    /// `->`
    Arrow,
    /// `..`
    Range,
    /// `~=`
    TildeEqual,
    /// `+=`
    PlusEqual,
    /// `-=`
    MinusEqual,
    /// `*=`
    StarEqual,
    /// `&=`
    AmpersandEqual,
    /// `|=`
    BarEqual,
    /// `^=`
    CaretEqual,
    /// `==`
    EqualEqual,
    /// `!=`
    ExclamationEqual,
    /// `<=`
    LessEqual,
    /// `>=`
    GreaterEqual,
    /// `&&`
    AmpersandAmpersand,
    /// `||`
    BarBar,
    /// `;`
    Semicolon,
    /// `:`
    Colon,
    /// `,`
    Comma,
    /// `=`
    Equal,
    /// `(`
    OpenParen,
    /// `)`
    CloseParen,
    /// `[`
    OpenBracket,
    /// `]`
    CloseBracket,
    /// `{`
    OpenBrace,
    /// `}`
    CloseBrace,
    /// `+`
    PlusSign,
    /// `-`
    MinusSign,
    /// `*`
    Star,
    /// `/`
    Slash,
    /// `%`
    Percent,
    /// `&`
    Ampersand,
    /// `|`
    Bar,
    /// `^`
    Caret,
    /// `!`
    Exclamation,
    /// `<`
    Less,
    /// `>`
    Greater,
}

// In the order of their declaration.
const MARKS: [Mark; 90] = [
    Mark::Pts,
    Mark::Const,
    Mark::Array,
    Mark::Function,
    Mark::List,
    Mark::Fill,
    Mark::Iota,
    Mark::Step,
    Mark::Mix,
    Mark::I64,
    Mark::U64,
    Mark::Bool,
    Mark::True,
    Mark::False,
    Mark::If,
    Mark::Then,
    Mark::Else,
    Mark::Throw,
    Mark::Seq,
    Mark::Par,
    Mark::ParUnseq,
    Mark::Unseq,
    Mark::Vector,
    Mark::ForEach,
    Mark::Transform,
    Mark::FindIf,
    Mark::CountIf,
    Mark::Reduce,
    Mark::TransformReduce,
    Mark::InclusiveScan,
    Mark::ExclusiveScan,
    Mark::TransformInclusiveScan,
    Mark::TransformExclusiveScan,
    Mark::ForLoop,
    Mark::TaskBlock,
    Mark::Print,
    Mark::Init,
    Mark::Into,
    Mark::To,
    Mark::As,
    Mark::Induct,
    Mark::Identity,
    Mark::Let,
    Mark::VecOff,
    Mark::Ordered,
    Mark::Run,
    Mark::Wait,
    Mark::Plus,
    Mark::Multiplies,
    Mark::BitAnd,
    Mark::BitOr,
    Mark::BitXor,
    Mark::Min,
    Mark::Max,
    Mark::Arrow,
    Mark::Range,
    Mark::TildeEqual,
    Mark::PlusEqual,
    Mark::MinusEqual,
    Mark::StarEqual,
    Mark::AmpersandEqual,
    Mark::BarEqual,
    Mark::CaretEqual,
    Mark::EqualEqual,
    Mark::ExclamationEqual,
    Mark::LessEqual,
    Mark::GreaterEqual,
    Mark::AmpersandAmpersand,
    Mark::BarBar,
    Mark::Semicolon,
    Mark::Colon,
    Mark::Comma,
    Mark::Equal,
    Mark::OpenParen,
    Mark::CloseParen,
    Mark::OpenBracket,
    Mark::CloseBracket,
    Mark::OpenBrace,
    Mark::CloseBrace,
    Mark::PlusSign,
    Mark::MinusSign,
    Mark::Star,
    Mark::Slash,
    Mark::Percent,
    Mark::Ampersand,
    Mark::Bar,
    Mark::Caret,
    Mark::Exclamation,
    Mark::Less,
    Mark::Greater,
];

impl Mark {
    /// How a script spells it.
    #[tactic(auto, unfolding(crate::specs::Marks::text_of))]
    pub fn text(self) -> &'static [u8]
        ensures { result.now ≡ text_of self }
    {
        match self {
            Mark::Pts => b"pts",
            Mark::Const => b"const",
            Mark::Array => b"array",
            Mark::Function => b"fn",
            Mark::List => b"list",
            Mark::Fill => b"fill",
            Mark::Iota => b"iota",
            Mark::Step => b"step",
            Mark::Mix => b"mix",
            Mark::I64 => b"i64",
            Mark::U64 => b"u64",
            Mark::Bool => b"bool",
            Mark::True => b"true",
            Mark::False => b"false",
            Mark::If => b"if",
            Mark::Then => b"then",
            Mark::Else => b"else",
            Mark::Throw => b"throw",
            Mark::Seq => b"seq",
            Mark::Par => b"par",
            Mark::ParUnseq => b"par_unseq",
            Mark::Unseq => b"unseq",
            Mark::Vector => b"vec",
            Mark::ForEach => b"for_each",
            Mark::Transform => b"transform",
            Mark::FindIf => b"find_if",
            Mark::CountIf => b"count_if",
            Mark::Reduce => b"reduce",
            Mark::TransformReduce => b"transform_reduce",
            Mark::InclusiveScan => b"inclusive_scan",
            Mark::ExclusiveScan => b"exclusive_scan",
            Mark::TransformInclusiveScan => b"transform_inclusive_scan",
            Mark::TransformExclusiveScan => b"transform_exclusive_scan",
            Mark::ForLoop => b"for_loop",
            Mark::TaskBlock => b"task_block",
            Mark::Print => b"print",
            Mark::Init => b"init",
            Mark::Into => b"into",
            Mark::To => b"to",
            Mark::As => b"as",
            Mark::Induct => b"induct",
            Mark::Identity => b"identity",
            Mark::Let => b"let",
            Mark::VecOff => b"vec_off",
            Mark::Ordered => b"ordered",
            Mark::Run => b"run",
            Mark::Wait => b"wait",
            Mark::Plus => b"plus",
            Mark::Multiplies => b"multiplies",
            Mark::BitAnd => b"bit_and",
            Mark::BitOr => b"bit_or",
            Mark::BitXor => b"bit_xor",
            Mark::Min => b"min",
            Mark::Max => b"max",
            Mark::Arrow => b"->",
            Mark::Range => b"..",
            Mark::TildeEqual => b"~=",
            Mark::PlusEqual => b"+=",
            Mark::MinusEqual => b"-=",
            Mark::StarEqual => b"*=",
            Mark::AmpersandEqual => b"&=",
            Mark::BarEqual => b"|=",
            Mark::CaretEqual => b"^=",
            Mark::EqualEqual => b"==",
            Mark::ExclamationEqual => b"!=",
            Mark::LessEqual => b"<=",
            Mark::GreaterEqual => b">=",
            Mark::AmpersandAmpersand => b"&&",
            Mark::BarBar => b"||",
            Mark::Semicolon => b";",
            Mark::Colon => b":",
            Mark::Comma => b",",
            Mark::Equal => b"=",
            Mark::OpenParen => b"(",
            Mark::CloseParen => b")",
            Mark::OpenBracket => b"[",
            Mark::CloseBracket => b"]",
            Mark::OpenBrace => b"{",
            Mark::CloseBrace => b"}",
            Mark::PlusSign => b"+",
            Mark::MinusSign => b"-",
            Mark::Star => b"*",
            Mark::Slash => b"/",
            Mark::Percent => b"%",
            Mark::Ampersand => b"&",
            Mark::Bar => b"|",
            Mark::Caret => b"^",
            Mark::Exclamation => b"!",
            Mark::Less => b"<",
            Mark::Greater => b">",
        }
    }

    /// The word or symbol with this text, where there is one.
    pub fn of_text(text: &[u8]) -> Option<Mark>
        ensures some { IfSome result (λ m. text.now ≡ text_of m) }
        ensures none { IfNone result ((m : Mark) → text.now ≢ text_of m) }
    {
        for mark in MARKS {
            if text == mark.text() {
                return Some(mark);
            }
        }
        None
    }
}

/// A law: no text is that of two words or symbols.
pub fn one_mark()
    ensures { (one other : Mark) → text_of one ≡ text_of other → one ≡ other }
{}
