//! Laws of the grammar.

ghost use Rattle.std.specs.Prelude.{◌↔◌, Bool, List};
ghost use Rattle.pts_tree.specs.Grammar.{Matches, Row, rows, written};
ghost use Rattle.pts_tree.specs.Signs.{Sign};

/// A law: the rules that one sign of look-ahead can follow have the same spellings, and the same beginnings of them, as
/// the rules that are written for a reader.
pub fn same_grammar()
    ensures { (v : Bool) (row : Row) (ts : List Sign) → Matches rows v row ts ↔ Matches written v row ts }
{}
