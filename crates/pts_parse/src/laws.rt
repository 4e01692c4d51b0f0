//! Laws of reading.

ghost use Rattle.std.specs.Prelude.{◌≡◌, ◌↔◌, false, List};
ghost use Rattle.pts_tree.specs.declared.script.Script.{Script};
ghost use Rattle.pts_tree.specs.Grammar.{IsPhrase, Matches, Row, The, rows};
ghost use Rattle.pts_tree.specs.Grammar as grammar;
ghost use Rattle.pts_tree.specs.Scripts.{Spells};
ghost use Rattle.pts_tree.specs.Signs.{Sign};
ghost use Rattle.pts_parse.specs.Laws.{BeginsInParts};

/// A law: signs begin a row of the grammar exactly where they are whole spellings of its first parts and then begin the
/// next part, where one is left.
pub fn begins_in_parts()
    ensures { (row : Row) (signs : List Sign) → Matches rows false row signs ↔ BeginsInParts row signs }
{}

/// A law: the rules of the grammar match exactly the signs that spell a script.
pub fn rules_match_what_is_spelled()
    ensures { (signs : List Sign) → IsPhrase (The grammar.script) signs ↔ ((x : Script) × Spells signs x) }
{}

/// A law: no list of signs spells two scripts.
pub fn one_reading()
    ensures { (signs : List Sign) (one other : Script) → Spells signs one → Spells signs other → one ≡ other }
{}
