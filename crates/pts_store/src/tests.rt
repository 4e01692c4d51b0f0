//! Writes at the ends of pages, blocks and bands, layers over layers, and calls that find no memory.

ghost use Rattle.std.specs.Prelude.{◌≡◌, ◌≢◌, ◌<◌, IfOk, length, get_or};
ghost use Rattle.pts_store.specs.Stores.{IsCell};

use crate::swaps::swapped;
use crate::{Overlay, Store, View, Writes, merge, stores_are_shared};
use pts_types::{NoMemory, Value};
use sqlite_items::Items;
use std::alloc::{AllocError, Global};
use std::test::Fail;

// Cells at both ends of pages, blocks and bands. Most are of no array of `arrays`.
const PLACES: &[(u32, u32)] = &[
    (0, 0),
    (0, 15),
    (0, 127),
    (0, 128),
    (0, 8_191),
    (0, 8_192),
    (63, 0),
    (64, 16_383),
    (4_095, 1_048_575),
];

// Values of the first array once a hundred more than their indices, and two others, are accepted.
const HELD: &[(usize, u64)] = &[
    (0, 100),
    (1, 1),
    (15, 115),
    (126, 126),
    (127, 227),
    (128, 228),
    (8_191, 8_291),
    (8_192, 8_292),
    (8_198, 8_198),
    (8_199, 3),
];

// A first array of 8,200 cells, whose values are their indices, and a last one of two cells.
fn arrays(alloc: Global) -> Result<Items<Items<Value>>, AllocError> {
    let mut cells = Items::new(alloc);
    for index in 0..8_200u64 {
        cells.push(Value::U64(index))?;
    }
    let mut all = Items::new(alloc);
    all.push(cells)?;
    for _ in 1..4_095u32 {
        all.push(Items::new(alloc))?;
    }
    all.push(Items::from_slice(alloc, &[Value::I64(-1), Value::Bool(true)])?)?;
    Ok(all)
}

// Whether a write to each of the places is read there, and none is read behind it; where there is no memory, what was there stays.
fn keeps_each(writes: &mut Writes, places: &[(u32, u32)], first: u64) -> bool {
    let mut right = true;
    for (array, index) in places {
        let value = Value::U64(first.wrapping_add(*index as u64));
        let before = writes.get(*array, *index);
        let after = match writes.set(*array, *index, value) {
            Ok(()) => Some(value),
            Err(NoMemory) => before,
        };
        right = right
            && writes.get(*array, *index) == after
            && writes.get(*array, 20_000).is_none();
    }
    right
}

fn set_each(writes: &mut Writes, places: &[(u32, u32)], first: u64) -> Result<(), NoMemory> {
    for (array, index) in places {
        let value = Value::U64(first.wrapping_add(*index as u64));
        writes.set(*array, *index, value)?;
    }
    Ok(())
}

// Whether each place has the later value, where there is one, and else what the first cell alone had before.
fn gives_each(target: &Writes, later: &Writes, places: &[(u32, u32)], first: Value) -> bool {
    let mut right = true;
    for (array, index) in places {
        let before = if *array == 0 && *index == 0 {
            Some(first)
        } else {
            None
        };
        let after = later.get(*array, *index).or(before);
        right = right && target.get(*array, *index) == after;
    }
    right
}

fn holds_each(cells: &[Value], held: &[(usize, u64)]) -> bool {
    let mut right = true;
    for (index, value) in held {
        right = right && cells.get(*index) == Some(&Value::U64(*value));
    }
    right
}

#[test]
fn each_place_has_its_last_value(rt: HostRuntime) -> Result<(), Fail> {
    let alloc = rt.alloc();
    let mut writes = Writes::new(alloc);
    assert!(rt; writes.is_empty());
    assert!(rt; keeps_each(&mut writes, PLACES, 1));
    assert!(rt; keeps_each(&mut writes, PLACES, 2));
    assert!(rt; writes.get(1, 0).is_none());
    assert!(rt; writes.get(0, 62).is_none());
    Ok(())
}

#[test]
fn a_merge_gives_the_later_values_or_nothing(rt: HostRuntime) -> Result<(), Fail> {
    let alloc = rt.alloc();
    let mut target = Writes::new(alloc);
    let mut later = Writes::new(alloc);
    assert!(rt; keeps_each(&mut later, PLACES, 5));
    target.set(0, 0, Value::Bool(true))?;
    target.set(2, 70, Value::I64(-7))?;
    match merge(&mut target, &later) {
        Ok(()) => assert!(rt; gives_each(&target, &later, PLACES, Value::Bool(true))),
        Err(NoMemory) => {
            assert!(rt; target.get(0, 0) == Some(Value::Bool(true)));
            assert!(rt; target.get(4_095, 1_048_575).is_none());
        }
    }
    assert!(rt; target.get(2, 70) == Some(Value::I64(-7)));
    assert!(rt; later.get(2, 70).is_none());
    Ok(())
}

#[test]
fn a_store_takes_what_its_arrays_have_cells_for(rt: HostRuntime) -> Result<(), Fail> {
    let alloc = rt.alloc();
    let cells = arrays(alloc)?;
    let mut store = Store::start(alloc, cells.as_slice())?;
    let mut writes = Writes::new(alloc);
    set_each(&mut writes, PLACES, 100)?;
    writes.set(4_095, 1, Value::Bool(false))?;
    writes.set(0, 8_199, Value::U64(3))?;
    store.accept(&writes);
    let first = store.cells(0);
    assert_eq!(rt; first.len(), 8_200);
    assert!(rt; holds_each(first, HELD));
    assert!(rt; store.cells(4_095) == [Value::I64(-1), Value::Bool(false)].as_slice());
    assert!(rt; store.cells(63).is_empty());
    assert!(rt; store.cells(4_096).is_empty());
    Ok(())
}

// What a cell shows with a write to it, and with one to its neighbour in an overlay above.
#[tactic(auto, using(crate::proofs::Kept::cells_stay))]
fn two_layers(
    alloc: Global,
    store: &Store,
    array: u32,
    index: u32,
) -> Result<(Value, Value), NoMemory>
    requires { IsCell store.now array index }
{
    let mut low = Overlay::over_store(alloc, store);
    low.set(array, index, Value::U64(10))?;
    let mut high = Overlay::over(alloc, &low);
    high.set(array, index ^ 1, Value::U64(20))?;
    Ok((low.cell(array, index), high.cell(array, index)))
}

// What a cell shows with all of these writes put over it.
#[tactic(auto, using(crate::proofs::Kept::cells_stay))]
fn put_over(
    alloc: Global,
    store: &Store,
    writes: &Writes,
    array: u32,
    index: u32,
) -> Result<Value, NoMemory>
    requires { IsCell store.now array index }
{
    let mut layer = Overlay::over_store(alloc, store);
    layer.put_all(writes)?;
    Ok(layer.cell(array, index))
}

#[test]
fn layers_show_the_nearest_write(rt: HostRuntime) -> Result<(), Fail> {
    let alloc = rt.alloc();
    let cells = arrays(alloc)?;
    let store = Store::start(alloc, cells.as_slice())?;
    assert!(rt; store.cells(0).len() > 64);
    assert_eq!(rt; store.cell(0, 63), Value::U64(63));
    let (low, high) = two_layers(alloc, &store, 0, 63)?;
    assert_eq!(rt; low, Value::U64(10));
    assert_eq!(rt; high, Value::U64(10));
    let mut writes = Writes::new(alloc);
    writes.set(0, 63, Value::U64(30))?;
    assert_eq!(rt; put_over(alloc, &store, &writes, 0, 63)?, Value::U64(30));
    Ok(())
}

#[test]
fn two_threads_swap_cells_of_a_view(rt: HostRuntime) -> Result<(), Fail> {
    let alloc = rt.alloc();
    let cells = arrays(alloc)?;
    let store = Store::start(alloc, cells.as_slice())?;
    assert!(rt; store.cells(0).len() > 8_192);
    let writes = swapped(&rt, alloc, &store, 0, 5, 8_192)?;
    assert!(rt; writes.get(0, 5) == Some(Value::U64(8_192)));
    assert!(rt; writes.get(0, 8_192) == Some(Value::U64(5)));
    let overlay = store.layer(alloc);
    stores_are_shared(&store, &overlay, &writes);
    let again = swapped(&rt, alloc, &overlay, 0, 8_192, 7)?;
    assert!(rt; again.get(0, 7) == Some(Value::U64(8_192)));
    assert!(rt; overlay.into_writes().is_empty());
    Ok(())
}
