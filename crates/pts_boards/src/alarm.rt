//! An alarm that workers raise and see.

ghost use Rattle.std.specs.Prelude.{◌≡◌, ◌+◌, ◌-◌, ◌<◌, ◌≤◌, ◌↔◌, ◌||◌, Bool, true, false, IsTrue, IfOk};

use crate::board::{Board, Chair, Knowledge, Terms};
use pts_types::NoMemory;
use std::alloc::Global;
use std::marker::{Brand, Model};

/// How often a seat raised the alarm, and what it knows of raises. No value of it is made.
pub struct Raises {
    pub count: u64,
    pub raised: bool,
    pub seen: bool,
}

impl Knowledge for Raises {
    ghost use Rattle.pts_boards.specs.Alarm.{alarm_sort};
    ghost use Rattle.pts_boards.specs.Laws.{alarm_lawful};

    ghost sort = { alarm_sort };

    ghost lawful = { alarm_lawful };
}

/// A board on which seats raise an alarm and see whether one was raised.
#[derive(Drop)]
pub struct Alarm {
    board: Board<Raises>,
}

impl Model for Alarm {
    ghost use Rattle.std.specs.Prelude.{◌≤◌};
    ghost use Rattle.pts_boards.specs.Seats.{BoardState};

    ghost Value = { BoardState };

    ghost view = { λ a. record { id = a.board.table.shared.table_id; shares = a.board.terms.shares } };

    ghost invariant = { λ a. a.board.terms.shares ≤ 64 };
}

/// The right to raise an alarm once and to see it, with a share of its weight.
#[derive(Drop)]
pub struct AlarmSeat {
    chair: Chair<Raises>,
    raised: bool,
}

impl Model for AlarmSeat {
    ghost use Rattle.std.specs.Prelude.{◌≡◌};
    ghost use Rattle.pts_boards.specs.Seats.{AlarmSeatState};

    ghost Value = { AlarmSeatState };

    ghost view = { λ s. record { board = s.chair.board; weight = s.chair.weight; raises = s.chair.known.count; raised = s.raised; seen = s.chair.known.seen } };

    ghost invariant = { λ s. s.chair.known.raised ≡ s.raised };
}

impl AlarmSeat {
    /// Whether this seat has raised, or one that it was cut from or that was joined to it.
    pub fn raised(&self) -> bool
        ensures { result ≡ self.now.raised }
    {
        self.raised
    }
}

impl Alarm {
    /// A board on which nothing was raised, and its first seat, which has the whole weight of 1 to 64 shares. Fails only for want of memory.
    pub fn make(alloc: Global, shares: u32) -> Result<(Alarm, AlarmSeat), NoMemory>
        requires some { 1 ≤ shares }
        requires few { shares ≤ 64 }
        ensures board { IfOk result (λ made. made.0.shares ≡ shares) }
        ensures seat { IfOk result (λ made. made.1 ≡ record { board = made.0.id; weight = shares; raises = 0; raised = false; seen = false }) }
    {
        let (board, chair) = Board::make(alloc, Terms { parts: 0, shares }, 0)?;
        Ok((
            Alarm { board },
            AlarmSeat {
                chair,
                raised: false,
            },
        ))
    }

    /// Raises the alarm.
    pub fn raise(&self, seat: &mut AlarmSeat)
        requires board { seat.old.board ≡ self.now.id }
        requires first { seat.old.raised ≡ false }
        ensures { seat.new ≡ record seat.old { raises = seat.old.raises + 1; raised = true } }
    {
        self.board.add_one::<Brand>(&mut seat.chair);
        seat.raised = true;
    }

    /// Whether some seat has raised, as far as this one sees. Once it is so, it stays so.
    pub fn seen(&self, seat: &mut AlarmSeat) -> bool
        requires { seat.old.board ≡ self.now.id }
        ensures known { seat.new ≡ record seat.old { seen = result } }
        ensures again { seat.old.seen ≡ true → result ≡ true }
        ensures own { 0 < seat.old.raises → result ≡ true }
        ensures whole { seat.old.weight ≡ self.now.shares → (IsTrue result ↔ (0 < seat.old.raises)) }
    {
        self.board.load::<Brand>(&mut seat.chair) > 0
    }

    /// A new seat with this much of the weight. The raises stay with the old seat.
    pub fn split(&self, seat: &mut AlarmSeat, weight: u32) -> AlarmSeat
        requires board { seat.old.board ≡ self.now.id }
        requires some { 1 ≤ weight }
        requires rest { weight < seat.old.weight }
        ensures kept { seat.new ≡ record seat.old { weight = seat.old.weight - weight } }
        ensures new { result ≡ record { board = seat.old.board; weight = weight; raises = 0; raised = seat.old.raised; seen = seat.old.seen } }
    {
        let chair = self.board.split(&mut seat.chair, weight);
        AlarmSeat {
            chair,
            raised: seat.raised,
        }
    }

    /// Adds the weight of the other seat and what it knows.
    pub fn join(&self, seat: &mut AlarmSeat, other: AlarmSeat)
        requires board { seat.old.board ≡ self.now.id }
        requires other { other.board ≡ self.now.id }
        ensures { seat.new ≡ record { board = seat.old.board; weight = seat.old.weight + other.weight; raises = seat.old.raises + other.raises; raised = seat.old.raised || other.raised; seen = seat.old.seen || other.seen } }
    {
        let AlarmSeat { chair, raised } = other;
        self.board.join(&mut seat.chair, chair);
        seat.raised |= raised;
    }

    /// Ends the board, and says whether the seat with the whole weight raised.
    pub fn close(self, seat: AlarmSeat) -> bool
        requires board { seat.board ≡ self.id }
        requires whole { seat.weight ≡ self.shares }
        ensures raised { IsTrue result ↔ (0 < seat.raises) }
        ensures seen { seat.seen ≡ true → result ≡ true }
    {
        let Alarm { board } = self;
        let AlarmSeat { chair, raised: _ } = seat;
        board.close(chair) > 0
    }
}
