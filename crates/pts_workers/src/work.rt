//! What workers do with the chunks that they draw.

ghost use Rattle.std.specs.Prelude.{ℕ, ◌<◌, ◌≤◌, ◌-◌, List, [], ◌∷◌, ◌++◌, IfOk, OnOk};

use pts_types::NoMemory;

/// Work on the chunks of a call, which any worker may do chunk by chunk.
pub trait Work: Sync {
    /// A share of a board of this work's own, where it has one.
    type Seat: Send + Drop;

    /// What one worker has made so far, with its share of that board.
    type State: Send + Drop;

    /// How many chunks there are.
    ghost chunks: { Self → ℕ };

    /// Whether a seat is for so many workers.
    ghost seated: { Self → ℕ → Self.Seat → Type 0 };

    /// Whether a state is what a worker has made that drew these chunks, in this order.
    ghost made: { Self → List ℕ → Self.State → Type 0 };

    /// Takes a seat for the last few of several workers; the other workers keep the rest.
    fn split(&self, seat: &mut Self::Seat, workers: u32, few: u32) -> Self::Seat
        requires some { 1 ≤ few }
        requires fewer { few < workers }
        requires seated { seated self.now workers seat.old }
        ensures few { seated self.now few result }
        ensures rest { seated self.now (workers - few) seat.new };

    /// The state of a worker that drew nothing. Takes what memory can be taken before the first chunk.
    fn begin(&self, seat: Self::Seat) -> Result<Self::State, NoMemory>
        requires { seated self.now 1 seat }
        ensures { IfOk result (λ state. made self.now [] state) };

    /// One chunk more than those before. A throw is no error: the state keeps it.
    fn chunk(&self, state: &mut Self::State, before: &[u32], number: u32) -> Result<(), NoMemory>
        requires within { number < chunks self.now }
        requires made { made self.now before.now state.old }
        ensures { OnOk result (made self.now (before.now ++ number ∷ []) state.new) };
}
