//! Names in a script.

ghost use Rattle.std.specs.Prelude.{◌≡◌, List, ℕ, string_bytes};

use std::marker::Model;

/// A name as the script spells it, in ASCII.
#[derive(Debug, Drop)]
pub struct Name {
    text: String,
}

impl Model for Name {
    ghost Value = { List ℕ };

    ghost view = { λ n. string_bytes n.text };
}

impl Name {
    pub fn new(text: String) -> Name
        ensures { result ≡ string_bytes text }
    {
        Name { text }
    }

    pub fn as_str(&self) -> &str
        ensures { result.now ≡ self.now }
    {
        self.text.as_str()
    }
}
