//! The least of the numbers that workers give.

ghost use Rattle.std.specs.Prelude.{◌≡◌, ◌⊎◌, ◌+◌, ◌-◌, ◌<◌, ◌≤◌, [], ◌∷◌, ◌++◌, min, All, Contains, IfOk};
ghost use Rattle.pts_boards.specs.Numbers.{least_of, none_lower};

use crate::board::{Board, Chair, Knowledge, Terms};
use pts_types::NoMemory;
use std::alloc::Global;
use std::collections::LinkedList;
use std::marker::{Brand, Model};

/// The numbers that a seat lowered, and the least answer that it was given. No value of it is made.
pub struct Lowered {
    pub numbers: LinkedList<u64>,
    pub least: u64,
}

impl Knowledge for Lowered {
    ghost use Rattle.pts_boards.specs.Least.{least_sort};
    ghost use Rattle.pts_boards.specs.Laws.{least_lawful};

    ghost sort = { least_sort };

    ghost lawful = { least_lawful };
}

/// A board that keeps the least of the numbers that its seats give.
#[derive(Drop)]
pub struct Least {
    board: Board<Lowered>,
}

impl Model for Least {
    ghost use Rattle.pts_boards.specs.Seats.{BoardState};

    ghost Value = { BoardState };

    ghost view = { λ a. record { id = a.board.table.shared.table_id; shares = a.board.terms.shares } };
}

/// The right to give numbers and to ask for the least, with a share of the board's weight.
#[derive(Drop)]
pub struct LeastSeat {
    chair: Chair<Lowered>,
}

impl Model for LeastSeat {
    ghost use Rattle.pts_boards.specs.Seats.{LeastSeatState};

    ghost Value = { LeastSeatState };

    ghost view = { λ s. record { board = s.chair.board; weight = s.chair.weight; lowered = s.chair.known.numbers; least = s.chair.known.least } };
}

impl Least {
    /// A board with no number, and its first seat, which has the whole weight of 1 to 64 shares. Fails only for want of memory.
    pub fn make(alloc: Global, shares: u32) -> Result<(Least, LeastSeat), NoMemory>
        requires some { 1 ≤ shares }
        requires few { shares ≤ 64 }
        ensures board { IfOk result (λ made. made.0.shares ≡ shares) }
        ensures seat { IfOk result (λ made. made.1 ≡ record { board = made.0.id; weight = shares; lowered = []; least = none_lower }) }
    {
        let (board, chair) = Board::make(alloc, Terms { parts: 0, shares }, u64::MAX)?;
        Ok((Least { board }, LeastSeat { chair }))
    }

    /// Gives a number.
    pub fn lower(&self, seat: &mut LeastSeat, x: u64)
        requires { seat.old.board ≡ self.now.id }
        ensures { seat.new ≡ record seat.old { lowered = seat.old.lowered ++ x ∷ [] } }
    {
        self.board.lower::<Brand>(&mut seat.chair, x);
    }

    /// The least number so far, or `u64::MAX` where none is less.
    pub fn now(&self, seat: &mut LeastSeat) -> u64
        requires { seat.old.board ≡ self.now.id }
        ensures known { seat.new ≡ record seat.old { least = result } }
        ensures falls { result ≤ seat.old.least }
        ensures below { All (λ x. result ≤ x) seat.old.lowered }
    {
        self.board.load::<Brand>(&mut seat.chair)
    }

    /// A new seat with this much of the weight. The numbers stay with the old seat.
    pub fn split(&self, seat: &mut LeastSeat, weight: u32) -> LeastSeat
        requires board { seat.old.board ≡ self.now.id }
        requires some { 1 ≤ weight }
        requires rest { weight < seat.old.weight }
        ensures kept { seat.new ≡ record seat.old { weight = seat.old.weight - weight } }
        ensures new { result ≡ record { board = seat.old.board; weight = weight; lowered = []; least = seat.old.least } }
    {
        let chair = self.board.split(&mut seat.chair, weight);
        LeastSeat { chair }
    }

    /// Adds the weight of the other seat and what it knows.
    pub fn join(&self, seat: &mut LeastSeat, other: LeastSeat)
        requires board { seat.old.board ≡ self.now.id }
        requires other { other.board ≡ self.now.id }
        ensures { seat.new ≡ record { board = seat.old.board; weight = seat.old.weight + other.weight; lowered = seat.old.lowered ++ other.lowered; least = min seat.old.least other.least } }
    {
        let LeastSeat { chair } = other;
        self.board.join(&mut seat.chair, chair);
    }

    /// Ends the board, and gives the least of the numbers of the seat with the whole weight, or `u64::MAX` where none is less.
    pub fn close(self, seat: LeastSeat) -> u64
        requires board { seat.board ≡ self.id }
        requires whole { seat.weight ≡ self.shares }
        ensures least { result ≡ least_of seat.lowered }
        ensures told { result ≤ seat.least }
        ensures given { (seat.least ≡ none_lower) ⊎ Contains seat.lowered seat.least }
    {
        let Least { board } = self;
        let LeastSeat { chair } = seat;
        board.close(chair)
    }
}
