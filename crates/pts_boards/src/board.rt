//! What the three boards have alike: one word of a table, and seats with a weight that are split, joined and closed.

ghost use Rattle.std.specs.Prelude.{◌≡◌, ◌<◌, ◌≤◌, ◌+◌, ◌-◌, ◌%◌, ◌^◌, ℕ, [], min, IfOk};
ghost use Rattle.pts_boards.specs.Rule.{Sort, IsLawful, Moves, Ends, hand};

use atomic_table::{Join, Play, Seat, Split, Table, TableRule};
use pts_types::NoMemory;
use std::alloc::Global;
use std::marker::{Brand, Model, PhantomData};

/// What is fixed when a board is made: how many parts there are to draw, which is 0 where none are, and the weight of all seats.
#[derive(Clone, Copy, Debug, PartialEq, Eq)]
pub struct Terms {
    pub parts: u64,
    pub shares: u32,
}

/// The view of one seat: its weight, and what it knows. No value of it is made.
pub struct Hand<K> {
    pub weight: u64,
    pub known: K,
}

/// What a seat of one sort of board knows. No value of it is made.
pub trait Knowledge {
    ghost sort: { Sort Self };

    ghost lawful: { IsLawful sort };
}

/// The rule of a board.
pub struct Ruled<K> {
    of: PhantomData<K>,
}

impl<K: Knowledge> TableRule<(), Hand<K>, Terms> for Ruled<K> {
    ghost use Rattle.pts_boards.specs.Rule.{Kept, hand};

    ghost holds = { λ terms. Kept K.sort terms };

    ghost first = { λ terms. hand terms.shares K.sort.nothing };
}

/// How much weight a split gives away. A call at `Brand` picks it.
trait Amount {
    ghost amount: { ℕ };
}

impl Amount for Brand {
    ghost amount = { 0 };
}

/// Cuts that weight off. What is counted stays with the old seat.
struct Cut<K, A> {
    of: PhantomData<(K, A)>,
}

impl<K: Knowledge, A: Amount> Split<Hand<K>> for Cut<K, A> {
    ghost use Rattle.std.specs.Prelude.{◌-◌};
    ghost use Rattle.pts_boards.specs.Rule.{hand};

    ghost left = { λ v. hand (v.weight - A.amount) v.known };

    ghost right = { λ v. hand A.amount (K.sort.passed v.known) };
}

/// Puts two seats together.
struct Merge<K> {
    of: PhantomData<K>,
}

impl<K: Knowledge> Join<Hand<K>> for Merge<K> {
    ghost use Rattle.std.specs.Prelude.{◌+◌};
    ghost use Rattle.pts_boards.specs.Rule.{hand};

    ghost both = { λ v w. hand (v.weight + w.weight) (K.sort.merged v.known w.known) };

    ghost spent = { hand 0 K.sort.nothing };
}

/// What a step tells of the word that it found and of what the seat knows afterwards. A call at `Brand` picks it.
pub trait Telling<K> {
    ghost then: { ℕ → K → Type 0 };
}

impl<K> Telling<K> for Brand {
    ghost then = { λ _ _. Unit {0} };
}

/// A step that tells this, and leaves the weight as it is.
struct Told<T> {
    of: PhantomData<T>,
}

impl<K, T: Telling<K>> Play<(), Hand<K>> for Told<T> {
    ghost use Rattle.std.specs.Prelude.{◌≡◌};

    ghost then = { λ _ before found after. (after.1 ≡ before.1) × (after.0.weight ≡ before.0.weight) × T.then found after.0.known };
}

/// A seat at a board of some sort.
#[derive(Drop)]
pub struct Chair<K> {
    seat: Seat<(), Hand<K>>,
}

impl<K> Model for Chair<K> {
    ghost use Rattle.std.specs.Prelude.{◌≡◌, ◌≤◌, []};
    ghost use Rattle.pts_boards.specs.Seats.{ChairState, chair_code};

    ghost Value = { ChairState K };

    ghost coded = { chair_code K.code };

    ghost view = { λ c. record { board = c.seat.table_id; weight = c.seat.me.0.weight; known = c.seat.me.0.known } };

    ghost invariant = { λ c. (c.seat.me.1 ≡ []) × (1 ≤ c.seat.me.0.weight) };
}

/// One word, and the terms that it was made under.
#[derive(Drop)]
pub struct Board<K: Knowledge> {
    table: Table<(), Hand<K>, Terms, Ruled<K>, Global>,
    pub terms: Terms,
    ghost one_word: { table.shared.table_id.words ≡ 1 },
    ghost no_slots: { table.shared.table_id.slots ≡ 0 },
    ghost same_terms: { table.shared.key ≡ terms },
}

impl<K: Knowledge> Board<K> {
    /// A board whose word is this, and the seat with the whole weight.
    pub fn make(alloc: Global, terms: Terms, word: u64) -> Result<(Board<K>, Chair<K>), NoMemory>
        requires some { 1 ≤ terms.shares }
        requires agrees { K.sort.Agrees terms word (λ _. 0) 0 }
        ensures terms { IfOk result (λ made. made.0.terms ≡ terms) }
        ensures seat { IfOk result (λ made. made.1 ≡ record { board = made.0.table.shared.table_id; weight = terms.shares; known = K.sort.nothing }) }
    {
        let (table, seat) = Table::of_words(alloc, &[word], &terms)?;
        Ok((Board { table, terms }, Chair { seat }))
    }

    /// A new seat with this much of the weight of another.
    pub fn split(&self, seat: &mut Chair<K>, weight: u32) -> Chair<K>
        requires board { seat.old.board ≡ self.now.table.shared.table_id }
        requires some { 1 ≤ weight }
        requires rest { weight < seat.old.weight }
        ensures kept { seat.new ≡ record seat.old { weight = seat.old.weight - weight } }
        ensures new { result ≡ record { board = seat.old.board; weight = weight; known = K.sort.passed seat.old.known } }
    {
        self.cut::<Brand>(seat, weight)
    }

    fn cut<A: Amount>(&self, seat: &mut Chair<K>, weight: u32) -> Chair<K>
        requires amount { A.amount ≡ weight }
        requires board { seat.old.board ≡ self.now.table.shared.table_id }
        requires some { 1 ≤ weight }
        requires rest { weight < seat.old.weight }
        ensures kept { seat.new ≡ record seat.old { weight = seat.old.weight - weight } }
        ensures new { result ≡ record { board = seat.old.board; weight = weight; known = K.sort.passed seat.old.known } }
    {
        let seat = self.table.shared.split_seat::<Cut<K, A>>(&mut seat.seat);
        Chair { seat }
    }

    /// Adds the weight of the other seat and what it knows.
    pub fn join(&self, seat: &mut Chair<K>, other: Chair<K>)
        requires board { seat.old.board ≡ self.now.table.shared.table_id }
        requires other { other.board ≡ self.now.table.shared.table_id }
        ensures { seat.new ≡ record { board = seat.old.board; weight = seat.old.weight + other.weight; known = K.sort.merged seat.old.known other.known } }
    {
        let Chair { seat: other } = other;
        self.table
            .shared
            .join_seat::<Merge<K>>(&mut seat.seat, other);
    }

    /// Reads the word.
    pub fn load<T: Telling<K>>(&self, seat: &mut Chair<K>) -> u64
        requires board { seat.old.board ≡ self.now.table.shared.table_id }
        requires moves { Moves K.sort self.now.terms seat.old.weight seat.old.known (λ n. n) T.then }
        ensures kept { seat.new ≡ record seat.old { known = seat.new.known } }
        ensures told { T.then result seat.new.known }
    {
        self.table.shared.load::<Told<T>>(&mut seat.seat, 0)
    }

    /// Adds 1 to the word, and gives it as it was.
    pub fn add_one<T: Telling<K>>(&self, seat: &mut Chair<K>) -> u64
        requires board { seat.old.board ≡ self.now.table.shared.table_id }
        requires moves { Moves K.sort self.now.terms seat.old.weight seat.old.known (λ n. (n + 1) % 2 ^ 64) T.then }
        ensures kept { seat.new ≡ record seat.old { known = seat.new.known } }
        ensures told { T.then result seat.new.known }
    {
        self.table.shared.fetch_add::<Told<T>>(&mut seat.seat, 0, 1)
    }

    /// Lowers the word to `x` where it is greater, and gives it as it was.
    pub fn lower<T: Telling<K>>(&self, seat: &mut Chair<K>, x: u64) -> u64
        requires board { seat.old.board ≡ self.now.table.shared.table_id }
        requires moves { Moves K.sort self.now.terms seat.old.weight seat.old.known (λ n. min n x) T.then }
        ensures kept { seat.new ≡ record seat.old { known = seat.new.known } }
        ensures told { T.then result seat.new.known }
    {
        self.table.shared.fetch_min::<Told<T>>(&mut seat.seat, 0, x)
    }

    /// Ends the board, and gives its word.
    pub fn close(self, seat: Chair<K>) -> u64
        requires board { seat.board ≡ self.table.shared.table_id }
        requires whole { seat.weight ≡ self.terms.shares }
        ensures { Ends K.sort self.terms seat.known result }
    {
        let Board { table, terms: _ } = self;
        let Chair { seat } = seat;
        let closed = table.close_with(seat);
        let word = closed.word(0);
        closed.free();
        word
    }
}
