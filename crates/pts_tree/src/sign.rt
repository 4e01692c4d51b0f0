//! Tokens by what they say.

ghost use Rattle.std.specs.Prelude.{◌≡◌, option_map};
ghost use Rattle.pts_tree.specs.Signs as spec;

use crate::mark::Mark;
use crate::name::Name;
use std::marker::Model;

/// What the grammar asks of a token: its kind, or that there is none.
#[derive(Clone, Copy, Debug, PartialEq, Eq, Hash)]
pub enum SignKind {
    Mark(Mark),
    Name,
    /// Any number but 1.
    Number,
    /// The number 1.
    One,
    /// No token.
    End,
}

#[derive(Drop)]
enum Content {
    Mark(Mark),
    Name(Name),
    Number(u64),
}

/// A token by what it says: a word or symbol of the language, a name by its text, a number by its value.
#[derive(Drop)]
pub struct Sign {
    content: Content,
}

impl Model for Sign {
    ghost use Rattle.pts_tree.specs.Signs.{Sign};
    ghost use Rattle.pts_tree.specs.SignViews.{sign_of};

    ghost Value = { Sign };

    ghost view = { λ s. sign_of s.content };
}

impl Sign {
    /// A word or symbol of the language.
    pub fn from_mark(mark: Mark) -> Sign
        ensures { result ≡ spec.Mark mark }
    {
        Sign {
            content: Content::Mark(mark),
        }
    }

    /// A name.
    pub fn from_name(name: Name) -> Sign
        ensures { result ≡ spec.Name name }
    {
        Sign {
            content: Content::Name(name),
        }
    }

    /// A number.
    pub fn from_number(number: u64) -> Sign
        ensures { result ≡ spec.Number number }
    {
        Sign {
            content: Content::Number(number),
        }
    }

    /// What the grammar asks of it.
    pub fn kind(&self) -> SignKind
        ensures { result ≡ spec.kind_of self.now }
    {
        match &self.content {
            Content::Mark(mark) => SignKind::Mark(*mark),
            Content::Name(_) => SignKind::Name,
            Content::Number(1) => SignKind::One,
            Content::Number(_) => SignKind::Number,
        }
    }

    /// The text of a name; None of any other.
    pub fn name(&self) -> Option<&str>
        ensures { option_map (λ text. text.now) result ≡ spec.name_of self.now }
    {
        match &self.content {
            Content::Name(name) => Some(name.as_str()),
            _ => None,
        }
    }

    /// The value of a number; None of any other.
    pub fn number(&self) -> Option<u64>
        ensures { result ≡ spec.number_of self.now }
    {
        match &self.content {
            Content::Number(number) => Some(*number),
            _ => None,
        }
    }
}
