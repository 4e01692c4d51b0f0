//! Numbers that workers draw from a shared count, each once.

ghost use Rattle.std.specs.Prelude.{◌≡◌, ◌+◌, ◌-◌, ◌<◌, ◌≤◌, ◌||◌, Bool, true, false, [], ◌∷◌, ◌++◌, length, All, IfOk};
ghost use Rattle.pts_boards.specs.Numbers.{CountsUp, IsDistinct};

use crate::board::{Board, Chair, Knowledge, Terms};
use pts_types::NoMemory;
use std::alloc::Global;
use std::collections::LinkedList;
use std::marker::{Brand, Model};

/// What a seat drew. No value of it is made.
pub struct Drawn {
    pub numbers: LinkedList<u64>,
    pub past: bool,
}

impl Knowledge for Drawn {
    ghost use Rattle.pts_boards.specs.Claims.{claim_sort};
    ghost use Rattle.pts_boards.specs.Laws.{claims_lawful};

    ghost sort = { claim_sort };

    ghost lawful = { claims_lawful };
}

/// A board from which seats draw the numbers of parts, each once.
#[derive(Drop)]
pub struct Claims {
    board: Board<Drawn>,
}

impl Model for Claims {
    ghost use Rattle.std.specs.Prelude.{◌≤◌};
    ghost use Rattle.pts_boards.specs.Seats.{ClaimsState};

    ghost Value = { ClaimsState };

    ghost view = { λ c. record { id = c.board.table.shared.table_id; parts = c.board.terms.parts; shares = c.board.terms.shares } };

    ghost invariant = { λ c. (c.board.terms.parts ≤ 1048576) × (c.board.terms.shares ≤ 64) };
}

/// The right to draw from a board, with a share of its weight.
#[derive(Drop)]
pub struct ClaimSeat {
    chair: Chair<Drawn>,
    past: bool,
}

impl Model for ClaimSeat {
    ghost use Rattle.std.specs.Prelude.{◌≡◌};
    ghost use Rattle.pts_boards.specs.Seats.{ClaimSeatState};

    ghost Value = { ClaimSeatState };

    ghost view = { λ s. record { board = s.chair.board; weight = s.chair.weight; drawn = s.chair.known.numbers; past = s.past } };

    ghost invariant = { λ s. s.chair.known.past ≡ s.past };
}

impl ClaimSeat {
    /// Whether a number was drawn that is past the end.
    pub fn past(&self) -> bool
        ensures { result ≡ self.now.past }
    {
        self.past
    }
}

impl Claims {
    /// A board of at most 1,048,576 parts, and its first seat, which has the whole weight of 1 to 64 shares. Fails only for want of memory.
    pub fn make(alloc: Global, parts: u64, shares: u32) -> Result<(Claims, ClaimSeat), NoMemory>
        requires few_parts { parts ≤ 1048576 }
        requires some { 1 ≤ shares }
        requires few { shares ≤ 64 }
        ensures board { IfOk result (λ made. (made.0.parts ≡ parts) × (made.0.shares ≡ shares)) }
        ensures seat { IfOk result (λ made. made.1 ≡ record { board = made.0.id; weight = shares; drawn = []; past = false }) }
    {
        let (board, chair) = Board::make(alloc, Terms { parts, shares }, 0)?;
        Ok((Claims { board }, ClaimSeat { chair, past: false }))
    }

    /// Draws the next number. One that is not below the number of parts is no part, and the seat is then past.
    pub fn claim(&self, seat: &mut ClaimSeat) -> u64
        requires board { seat.old.board ≡ self.now.id }
        requires left { seat.old.past ≡ false }
        ensures drew { result < self.now.parts → seat.new ≡ record seat.old { drawn = seat.old.drawn ++ result ∷ [] } }
        ensures past { self.now.parts ≤ result → seat.new ≡ record seat.old { past = true } }
        ensures ascends { All (λ x. x < result) seat.old.drawn }
        ensures once { IsDistinct seat.new.drawn }
    {
        let number = self.board.add_one::<Brand>(&mut seat.chair);
        seat.past = number >= self.board.terms.parts;
        number
    }

    /// A new seat with this much of the weight. What was drawn stays with the old seat.
    pub fn split(&self, seat: &mut ClaimSeat, weight: u32) -> ClaimSeat
        requires board { seat.old.board ≡ self.now.id }
        requires some { 1 ≤ weight }
        requires rest { weight < seat.old.weight }
        ensures kept { seat.new ≡ record seat.old { weight = seat.old.weight - weight } }
        ensures new { result ≡ record { board = seat.old.board; weight = weight; drawn = []; past = seat.old.past } }
    {
        let chair = self.board.split(&mut seat.chair, weight);
        ClaimSeat {
            chair,
            past: seat.past,
        }
    }

    /// Adds the weight of the other seat and what it drew. No number is then there twice.
    pub fn join(&self, seat: &mut ClaimSeat, other: ClaimSeat)
        requires board { seat.old.board ≡ self.now.id }
        requires other { other.board ≡ self.now.id }
        ensures both { seat.new ≡ record { board = seat.old.board; weight = seat.old.weight + other.weight; drawn = seat.old.drawn ++ other.drawn; past = seat.old.past || other.past } }
        ensures once { IsDistinct seat.new.drawn }
    {
        let ClaimSeat { chair, past } = other;
        self.board.join(&mut seat.chair, chair);
        seat.past |= past;
        self.board.load::<Brand>(&mut seat.chair);
    }

    /// Ends the board. The numbers of the seat with the whole weight are those below their count, each once, and all parts where it is past.
    pub fn close(self, seat: ClaimSeat)
        requires board { seat.board ≡ self.id }
        requires whole { seat.weight ≡ self.shares }
        ensures each { CountsUp seat.drawn }
        ensures within { length seat.drawn ≤ self.parts }
        ensures all { seat.past ≡ true → length seat.drawn ≡ self.parts }
    {
        let Claims { board } = self;
        let ClaimSeat { chair, past: _ } = seat;
        board.close(chair);
    }
}
