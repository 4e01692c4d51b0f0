//! Boards used from many threads: what each run leaves is what the clauses of its board say.

ghost use Rattle.std.specs.Prelude.{◌≡◌, ◌≤◌, ◌<◌, ◌+◌, true, false, [], length, IfOk};
ghost use Rattle.std.specs.Thread.{IsSync};
ghost use Rattle.pts_boards.specs.Numbers.{least_of};

use crate::{Alarm, AlarmSeat, ClaimSeat, Claims, Least, LeastSeat};
use std::alloc::{AllocError, Global};
use std::thread::{Threads, join};

// Draws until nothing is left, and lists what it drew.
fn draw_all(
    claims: &Claims,
    parts: u64,
    seat: &mut ClaimSeat,
    list: &mut Vec<u64>,
) -> Result<(), AllocError>
    requires board { seat.old.board ≡ claims.now.id }
    requires parts { parts ≡ claims.now.parts }
    requires left { seat.old.past ≡ false }
    requires same { list.old.items ≡ seat.old.drawn }
    ensures board { seat.new.board ≡ seat.old.board }
    ensures weight { seat.new.weight ≡ seat.old.weight }
    ensures same { IfOk result (λ _. list.new.items ≡ seat.new.drawn) }
{
    for _ in 0..=parts {
        let number = claims.claim(seat);
        if number >= parts {
            break;
        }
        list.push(number)?;
    }
    Ok(())
}

/// The numbers that so many threads drew, and the seat that has them all.
pub fn draw_by<R: Threads + Sync>(
    rt: &R,
    alloc: Global,
    claims: &Claims,
    parts: u64,
    mut seat: ClaimSeat,
    workers: u32,
) -> Result<(ClaimSeat, Vec<u64>), AllocError>
    requires board { seat.board ≡ claims.now.id }
    requires parts { parts ≡ claims.now.parts }
    requires fresh { (seat.past ≡ false) × (seat.drawn ≡ []) }
    requires some { 1 ≤ workers }
    requires enough { workers ≤ seat.weight }
    ensures board { IfOk result (λ done. done.0.board ≡ claims.now.id) }
    ensures weight { IfOk result (λ done. done.0.weight ≡ seat.weight) }
    ensures same { IfOk result (λ done. done.1.items ≡ done.0.drawn) }
{
    if workers < 2 {
        let mut list = Vec::new(alloc);
        draw_all(claims, parts, &mut seat, &mut list)?;
        return Ok((seat, list));
    }
    let few = workers / 2;
    let rest = workers - few;
    let theirs = claims.split(&mut seat, few);
    let (a, b) = join(
        rt,
        move || -> Result<(ClaimSeat, Vec<u64>), AllocError>
            requires { IsSync R.row × (theirs.board ≡ claims.now.id) × (parts ≡ claims.now.parts) × (theirs.past ≡ false) × (theirs.drawn ≡ []) × (1 ≤ few) × (few ≤ theirs.weight) }
            ensures { IfOk result (λ done. (done.0.board ≡ claims.entry.now.id) × (done.0.weight ≡ theirs.weight) × (done.1.items ≡ done.0.drawn)) }
        { draw_by(rt, alloc, claims, parts, theirs, few) },
        move || -> Result<(ClaimSeat, Vec<u64>), AllocError>
            requires { IsSync R.row × (seat.board ≡ claims.now.id) × (parts ≡ claims.now.parts) × (seat.past ≡ false) × (seat.drawn ≡ []) × (1 ≤ rest) × (rest ≤ seat.weight) }
            ensures { IfOk result (λ done. (done.0.board ≡ claims.entry.now.id) × (done.0.weight ≡ seat.weight) × (done.1.items ≡ done.0.drawn)) }
        { draw_by(rt, alloc, claims, parts, seat, rest) },
    );
    let (mut seat, mut list) = b?;
    let (other, mut more) = a?;
    claims.join(&mut seat, other);
    list.append(&mut more)?;
    Ok((seat, list))
}

fn raised(alarm: &Alarm, mut seat: AlarmSeat) -> AlarmSeat
    requires board { seat.board ≡ alarm.now.id }
    requires first { seat.raised ≡ false }
    ensures { result ≡ record seat { raises = seat.raises + 1; raised = true } }
{
    alarm.raise(&mut seat);
    seat
}

fn looked(alarm: &Alarm, mut seat: AlarmSeat) -> AlarmSeat
    requires { seat.board ≡ alarm.now.id }
    ensures board { result.board ≡ seat.board }
    ensures weight { result.weight ≡ seat.weight }
    ensures raises { result.raises ≡ seat.raises }
{
    alarm.seen(&mut seat);
    seat
}

/// One thread raises and another looks: once they are joined, the raise is seen.
pub fn raise_by_two<R: Threads + Sync>(rt: &R, alarm: Alarm, mut seat: AlarmSeat) -> (bool, bool)
    requires board { seat.board ≡ alarm.id }
    requires whole { (seat.weight ≡ alarm.shares) × (alarm.shares ≡ 2) }
    requires fresh { seat.raised ≡ false }
    ensures { (result.0 ≡ true) × (result.1 ≡ true) }
{
    let board = &alarm;
    let theirs = board.split(&mut seat, 1);
    let (theirs, mut seat) = join(
        rt,
        move || -> AlarmSeat
            requires { (theirs.board ≡ board.now.id) × (theirs.raised ≡ false) }
            ensures { result ≡ record theirs { raises = theirs.raises + 1; raised = true } }
        { raised(board, theirs) },
        move || -> AlarmSeat
            requires { seat.board ≡ board.now.id }
            ensures { (result.board ≡ seat.board) × (result.weight ≡ seat.weight) × (result.raises ≡ seat.raises) }
        { looked(board, seat) },
    );
    board.join(&mut seat, theirs);
    let seen = board.seen(&mut seat);
    (seen, alarm.close(seat))
}

/// So many threads give these numbers.
pub fn lower_by<R: Threads + Sync>(
    rt: &R,
    least: &Least,
    mut seat: LeastSeat,
    numbers: &[u64],
    workers: u32,
) -> LeastSeat
    requires board { seat.board ≡ least.now.id }
    requires some { 1 ≤ workers }
    requires enough { workers ≤ seat.weight }
    ensures board { result.board ≡ seat.board }
    ensures weight { result.weight ≡ seat.weight }
    ensures count { length result.lowered ≡ length seat.lowered + length numbers.now }
{
    if workers < 2 {
        for x in numbers {
            least.lower(&mut seat, *x);
            least.now(&mut seat);
        }
        return seat;
    }
    let few = workers / 2;
    let rest = workers - few;
    let (front, back) = numbers.split_at(numbers.len() / 2);
    let theirs = least.split(&mut seat, few);
    let (theirs, mut seat) = join(
        rt,
        move || -> LeastSeat
            requires { IsSync R.row × (theirs.board ≡ least.now.id) × (1 ≤ few) × (few ≤ theirs.weight) }
            ensures { (result.board ≡ theirs.board) × (result.weight ≡ theirs.weight) × (length result.lowered ≡ length theirs.lowered + length front.entry.now) }
        { lower_by(rt, least, theirs, front, few) },
        move || -> LeastSeat
            requires { IsSync R.row × (seat.board ≡ least.now.id) × (1 ≤ rest) × (rest ≤ seat.weight) }
            ensures { (result.board ≡ seat.board) × (result.weight ≡ seat.weight) × (length result.lowered ≡ length seat.lowered + length back.entry.now) }
        { lower_by(rt, least, seat, back, rest) },
    );
    least.join(&mut seat, theirs);
    seat
}
