//! Laws of reading and printing.

ghost use Rattle.std.specs.Prelude.{◌≡◌, ◌≢◌, ℕ, List};
ghost use Rattle.pts_tree.specs.declared.script.Script.{Script};
ghost use Rattle.pts_print.specs.Canonical.{canonical};
ghost use Rattle.pts_syntax.specs.declared.reading.SyntaxFault.{SyntaxFault};
ghost use Rattle.pts_syntax.specs.declared.reading.SyntaxKind.TheVariants.{NoMemory};
ghost use Rattle.pts_syntax.specs.Syntax.{Explains, IsParsed, IsWritable};

/// A law: no bytes spell two scripts.
pub fn one_script()
    ensures { (bytes : List ℕ) (one other : Script) → IsParsed bytes one → IsParsed bytes other → one ≡ other }
{}

/// A law: bytes that spell a script have no fault but want of memory.
pub fn no_fault_of_a_script()
    ensures { (bytes : List ℕ) (x : Script) (fault : SyntaxFault) → IsParsed bytes x → Explains bytes fault → fault.kind ≡ NoMemory }
{}

/// A law: bytes have at most one fault besides want of memory.
pub fn one_fault()
    ensures { (bytes : List ℕ) (one other : SyntaxFault) → Explains bytes one → Explains bytes other
        → one.kind ≢ NoMemory → other.kind ≢ NoMemory → one ≡ other }
{}

/// A law: the grammar has each script that is read, its names and numbers are those of tokens, and no bracket of it is one
/// too many.
pub fn what_is_read_is_writable()
    ensures { (bytes : List ℕ) (x : Script) → IsParsed bytes x → IsWritable x }
{}

/// A law: what a script of the grammar prints as is read as that script. With `one_script` and `no_fault_of_a_script`, what
/// `parse` answers for the bytes that `print` gives is that script and nothing else, unless memory runs out.
pub fn print_is_read_back()
    ensures { (x : Script) → IsWritable x → IsParsed (canonical x) x }
{}
