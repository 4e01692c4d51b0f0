//! A pool at its limits, two seats used in turn, and boards used from four threads.

use crate::runs::{draw_by, lower_by, raise_by_two};
use crate::{Alarm, Claims, Gate, Grouping, Least, NoGate, Passing, Pool};
use sqlite_items::Items;
use std::test::Fail;

const PARTS: u64 = 10_000;

fn passed<G: Gate>(gate: &G) {
    gate.pass(Passing::Chunk { call: 1, chunk: 0 });
    gate.pass(Passing::Task { block: 1, run: 0 });
}

#[test]
fn a_pool_lies_in_its_ranges(rt: HostRuntime) -> Result<(), Fail> {
    for (workers, chunk, fits) in [
        (1, 1, true),
        (64, 65_536, true),
        (0, 1, false),
        (65, 1, false),
        (1, 0, false),
        (1, 65_537, false),
    ] {
        assert!(rt; Pool::new(workers, chunk).is_some() == fits);
    }
    passed(&NoGate);
    Ok(())
}

#[test]
fn a_grouping_holds_its_groups(rt: HostRuntime) -> Result<(), Fail> {
    let alloc = rt.alloc();
    let mut groups = Items::new(alloc);
    groups.push(Items::from_slice(alloc, &[0, 2])?)?;
    groups.push(Items::from_slice(alloc, &[1])?)?;
    let grouping = Grouping { groups };
    let sizes = [2, 1];
    for (group, size) in grouping.groups.as_slice().iter().zip(&sizes) {
        assert_eq!(rt; group.len(), *size);
    }
    Ok(())
}

#[test]
fn two_seats_draw_three_parts_in_turn(rt: HostRuntime) -> Result<(), Fail> {
    let (claims, mut one) = Claims::make(rt.alloc(), 3, 2)?;
    let mut two = claims.split(&mut one, 1);
    assert_eq!(rt; claims.claim(&mut one), 0);
    assert_eq!(rt; claims.claim(&mut two), 1);
    assert_eq!(rt; claims.claim(&mut one), 2);
    assert!(rt; claims.claim(&mut two) >= 3);
    assert!(rt; claims.claim(&mut one) >= 3);
    assert!(rt; one.past() && two.past());
    claims.join(&mut one, two);
    claims.close(one);
    Ok(())
}

#[test]
fn four_threads_draw_each_part_once(rt: HostRuntime) -> Result<(), Fail> {
    let alloc = rt.alloc();
    let (claims, seat) = Claims::make(alloc, PARTS, 4)?;
    let (seat, mut list) = draw_by(&rt, alloc, &claims, PARTS, seat, 4)?;
    assert!(rt; seat.past());
    claims.close(seat);
    list.sort()?;
    assert!(rt; list.len() == 10_000);
    for at in 0..10_000 {
        assert_eq!(rt; list[at], at as u64);
    }
    Ok(())
}

#[test]
fn a_raise_is_seen_after_a_join(rt: HostRuntime) -> Result<(), Fail> {
    let (alarm, seat) = Alarm::make(rt.alloc(), 2)?;
    assert!(rt; !seat.raised());
    assert_eq!(rt; raise_by_two(&rt, alarm, seat), (true, true));
    let (alarm, mut seat) = Alarm::make(rt.alloc(), 2)?;
    assert!(rt; !alarm.seen(&mut seat));
    assert!(rt; !alarm.close(seat));
    Ok(())
}

#[test]
fn two_seats_lower_nine_and_four(rt: HostRuntime) -> Result<(), Fail> {
    let (least, mut one) = Least::make(rt.alloc(), 2)?;
    let mut two = least.split(&mut one, 1);
    least.lower(&mut one, 9);
    least.lower(&mut two, 4);
    least.join(&mut one, two);
    assert_eq!(rt; least.close(one), 4);
    let (least, seat) = Least::make(rt.alloc(), 2)?;
    assert_eq!(rt; least.close(seat), u64::MAX);
    Ok(())
}

#[test]
fn four_threads_lower_to_the_least(rt: HostRuntime) -> Result<(), Fail> {
    let alloc = rt.alloc();
    let mut numbers = Vec::new(alloc);
    for n in 0..1000u64 {
        numbers.push(5 + (n * 7) % 1000)?;
    }
    let (least, seat) = Least::make(alloc, 4)?;
    let mut seat = lower_by(&rt, &least, seat, numbers.as_slice(), 4);
    assert_eq!(rt; least.now(&mut seat), 5);
    assert_eq!(rt; least.close(seat), 5);
    Ok(())
}
