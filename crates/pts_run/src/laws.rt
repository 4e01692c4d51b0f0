//! Laws of what a command answers.

ghost use Rattle.std.specs.Prelude.{◌≡◌, ℕ, List};
ghost use Rattle.pts_run.specs.declared.refusal.Refusal.{Refusal};
ghost use Rattle.pts_run.specs.declared.words.Command.{Command};
ghost use Rattle.pts_run.specs.Output.{Refuses, Takes};

/// A law: no command takes bytes that it refuses.
pub fn takes_or_refuses()
    ensures { (command : Command) (bytes : List ℕ) (reason : Refusal) → Takes command bytes → Refuses command bytes reason → ⊥ }
{}

/// A law: a command refuses bytes for one reason at most.
pub fn one_reason()
    ensures { (command : Command) (bytes : List ℕ) (reason other : Refusal) → Refuses command bytes reason → Refuses command bytes other → reason ≡ other }
{}
