//! The grammar of the command line.

ghost use Rattle.std.specs.Prelude.{◌≡◌, ◌<◌, ◌^◌, ◌↔◌, ℕ, [], Some, None, decimal, map, string_bytes};
ghost use Rattle.pts_run.specs.Words.{IsCommand};
ghost use Rattle.pts_run.specs.Settings.{LeadsTo};
ghost use Rattle.pts_run.specs.Settings as spec;

use itoa::Buffer;
use pts_boards::Pool;

// How many workers run a call where the words say nothing.
const USUAL_WORKERS: u32 = 4;

// How many positions a chunk has where the words say nothing.
const USUAL_CHUNK: u32 = 1_024;

/// What the command line asks for.
#[derive(Clone, Copy, Debug, PartialEq, Eq)]
pub enum Command {
    /// Reads a script, runs it and writes its lines.
    Run { pool: Pool },
    /// Reads a script, checks it and writes `accepted`.
    Check,
    /// Reads a script and writes its canonical spelling.
    Print,
}

// The settings that the words of a run have so far.
#[derive(Clone, Copy)]
struct Settings {
    workers: Option<u32>,
    chunk: Option<u32>,
}

impl Settings {
    // The settings with one more, where it has a name of theirs and was not there before.
    fn with(self, name: &str, number: u32) -> Option<Settings>
        ensures { result ≡ spec.with_setting self name.now number }
    {
        if name == "--workers" && self.workers.is_none() {
            return Some(Settings {
                workers: Some(number),
                ..self
            });
        }
        if name == "--chunk" && self.chunk.is_none() {
            return Some(Settings {
                chunk: Some(number),
                ..self
            });
        }
        None
    }

    // The pool that they make, where both numbers lie in their ranges.
    fn pool(self) -> Option<Pool>
        ensures { (pool : Pool) → (result ≡ Some pool) ↔ LeadsTo self [] pool }
    {
        Pool::new(
            self.workers.unwrap_or(USUAL_WORKERS),
            self.chunk.unwrap_or(USUAL_CHUNK),
        )
    }
}

/// The command that the words are; None exactly where they are none. The options of `run` are `--workers N`, 1 to 64, and
/// `--chunk N`, 1 to 65,536, in any order and each at most once; without them N is 4 and 1,024. `check` and `print` have none.
pub fn read_words(words: &[String]) -> Option<Command>
    ensures { (command : Command) → (result ≡ Some command) ↔ IsCommand (map string_bytes words.now) command }
{
    match words {
        [] => None,
        [word, rest @ ..] => {
            let word = word.as_str();
            if word == "run" {
                return Some(Command::Run {
                    pool: read_settings(rest)?,
                });
            }
            if !rest.is_empty() {
                return None;
            }
            if word == "check" {
                return Some(Command::Check);
            }
            if word == "print" {
                return Some(Command::Print);
            }
            None
        }
    }
}

// The pool of a run whose words behind the first are these.
fn read_settings(words: &[String]) -> Option<Pool>
    ensures { (pool : Pool) → (result ≡ Some pool) ↔ LeadsTo (record { workers = None; chunk = None }) (map string_bytes words.now) pool }
{
    let mut settings = Settings {
        workers: None,
        chunk: None,
    };
    let mut rest = words;
    while let [name, number, after @ ..] = rest {
        settings = settings.with(name.as_str(), read_number(number.as_str())?)?;
        rest = after;
    }
    if rest.is_empty() {
        settings.pool()
    } else {
        None
    }
}

// The number that a word spells in decimal, without sign or leading zero.
fn read_number(word: &str) -> Option<u32>
    ensures { (n : ℕ) → (result ≡ Some n) ↔ ((word.now ≡ decimal n) × (n < 2 ^ 32)) }
{
    let number: u32 = word.parse().ok()?;
    let mut buffer = Buffer::new();
    if buffer.format(number) == word {
        Some(number)
    } else {
        None
    }
}
