//! The tokens of a script: words, names, numbers and symbols, with white space and comments between them.
#![tactic(auto)]

mod token;

pub use token::{
    LexFault, Token, TokenKind, first_token, one_token_list, tokens, tokens_or_one_fault,
};
