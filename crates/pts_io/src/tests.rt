//! The two loops over sources and sinks that move all at once, one byte a call, or fail.

use crate::{
    Failed, MemorySink, MemorySource, ReadEnd, Sink, SinkFault, Source, StdSink, StdSource,
    read_all, write_all,
};
use pts_types::NoMemory;
use std::alloc::{AllocError, Global};
use std::io;
use std::io::{ErrorKind, Read};
use std::test::Fail;

const TEXT: [u8; 3] = *b"abc";

// The number of a call that never comes.
const NEVER: u64 = 9;

// A source or a sink that moves one byte a call.
#[derive(Debug, Drop)]
struct OneByOne<T> {
    inner: T,
}

impl<S: Source> Source for OneByOne<S> {
    ghost left = { λ s. S.left s.inner };

    ghost faults = { λ s. S.faults s.inner };

    fn next(&mut self, buf: &mut [u8]) -> Result<usize, Failed> {
        self.inner.next(&mut buf[..1])
    }
}

impl<K: Sink> Sink for OneByOne<K> {
    ghost written = { λ s. K.written s.inner };

    ghost faults = { λ s. K.faults s.inner };

    fn put(&mut self, piece: &[u8]) -> Result<usize, Failed> {
        self.inner.put(&piece[..1])
    }
}

// A reader that gives one byte, and then fails.
#[derive(Debug, Drop)]
struct Breaks {
    is_broken: bool,
}

impl Read for Breaks {
    fn read(&mut self, buf: &mut [u8]) -> io::Result<usize> {
        if self.is_broken || buf.is_empty() {
            return Err(io::Error::from(ErrorKind::BrokenPipe));
        }
        self.is_broken = true;
        buf[0] = b'a';
        Ok(1)
    }
}

// So many bytes that one call does not give them all, no two beside each other the same.
fn many(alloc: Global, count: usize) -> Result<Vec<u8>, AllocError> {
    (0..count).map(|place| (place % 251) as u8).collect(alloc)
}

fn source(alloc: Global, failing: u64) -> Result<MemorySource, AllocError> {
    Ok(MemorySource::new(TEXT.to_vec(alloc)?, [failing].to_vec(alloc)?))
}

fn sink(alloc: Global, room: usize, failing: u64) -> Result<MemorySink, NoMemory> {
    let fails = [failing].to_vec(alloc)?;
    MemorySink::new(alloc, room, fails)
}

fn bytes_of(found: &Result<Vec<u8>, ReadEnd>) -> Result<&[u8], ReadEnd> {
    match found {
        Ok(bytes) => Ok(bytes.as_slice()),
        Err(end) => Err(*end),
    }
}

fn end_of(written: usize) -> Result<(), SinkFault> {
    if written == TEXT.len() {
        Ok(())
    } else {
        Err(SinkFault { written })
    }
}

#[test]
fn reads_the_whole_or_says_why_not(rt: HostRuntime) -> Result<(), Fail> {
    let alloc = rt.alloc();
    let all = Ok(TEXT.as_slice());
    let table = [
        (3, NEVER, all, all),
        (4, NEVER, all, all),
        (2, NEVER, Err(ReadEnd::TooLong), Err(ReadEnd::TooLong)),
        (0, NEVER, Err(ReadEnd::TooLong), Err(ReadEnd::TooLong)),
        (3, 0, Err(ReadEnd::Fault), Err(ReadEnd::Fault)),
        (3, 1, Err(ReadEnd::Fault), Err(ReadEnd::Fault)),
        (3, 2, all, Err(ReadEnd::Fault)),
        (3, 3, all, Err(ReadEnd::Fault)),
        (3, 4, all, all),
        (2, 3, Err(ReadEnd::TooLong), Err(ReadEnd::TooLong)),
    ];
    for (limit, failing, whole, one_by_one) in table {
        let found = read_all(alloc, &mut source(alloc, failing)?, limit);
        assert_eq!(rt; bytes_of(&found), whole, "{limit} {failing}");
        let mut slow = OneByOne {
            inner: source(alloc, failing)?,
        };
        let found = read_all(alloc, &mut slow, limit);
        assert_eq!(rt; bytes_of(&found), one_by_one, "{limit} {failing}");
    }
    Ok(())
}

#[test]
fn a_fault_leaves_what_was_not_read(rt: HostRuntime) -> Result<(), Fail> {
    let alloc = rt.alloc();
    let mut slow = OneByOne {
        inner: source(alloc, 2)?,
    };
    let found = read_all(alloc, &mut slow, 3);
    assert_eq!(rt; bytes_of(&found), Err(ReadEnd::Fault));
    let found = read_all(alloc, &mut slow, 3);
    assert_eq!(rt; bytes_of(&found), Ok(b"c".as_slice()));
    Ok(())
}

#[test]
fn reads_in_many_pieces(rt: HostRuntime) -> Result<(), Fail> {
    let alloc = rt.alloc();
    let long = many(alloc, 20_000)?;
    for (limit, is_whole) in [(20_000, true), (19_999, false)] {
        let mut source = MemorySource::new(long.clone()?, Vec::new(alloc));
        let found = read_all(alloc, &mut source, limit);
        let want = if is_whole {
            Ok(long.as_slice())
        } else {
            Err(ReadEnd::TooLong)
        };
        assert_eq!(rt; bytes_of(&found), want, "{limit}");
    }
    Ok(())
}

#[test]
fn writes_the_whole_or_says_how_far(rt: HostRuntime) -> Result<(), Fail> {
    let alloc = rt.alloc();
    let table = [
        (3, NEVER, 3, 3),
        (4, NEVER, 3, 3),
        (2, NEVER, 2, 2),
        (0, NEVER, 0, 0),
        (3, 0, 0, 0),
        (3, 1, 3, 1),
        (3, 2, 3, 2),
        (3, 3, 3, 3),
    ];
    for (room, failing, whole, one_by_one) in table {
        let mut fast = sink(alloc, room, failing)?;
        assert_eq!(rt;
            write_all(&mut fast, &TEXT),
            end_of(whole),
            "{room} {failing}"
        );
        assert_eq!(rt; fast.bytes(), &TEXT[..whole], "{room} {failing}");
        let mut slow = OneByOne {
            inner: sink(alloc, room, failing)?,
        };
        assert_eq!(rt;
            write_all(&mut slow, &TEXT),
            end_of(one_by_one),
            "{room} {failing}"
        );
        assert_eq!(rt; slow.inner.bytes(), &TEXT[..one_by_one], "{room} {failing}");
    }
    Ok(())
}

#[test]
fn reads_and_writes_over_std(rt: HostRuntime) -> Result<(), Fail> {
    let alloc = rt.alloc();
    let found = read_all(alloc, &mut StdSource::new(TEXT.as_slice()), 3);
    assert_eq!(rt; bytes_of(&found), Ok(TEXT.as_slice()));
    let found = read_all(alloc, &mut StdSource::new(Breaks { is_broken: false }), 3);
    assert_eq!(rt; bytes_of(&found), Err(ReadEnd::Fault));

    let mut room = [0; 3];
    assert_eq!(rt;
        write_all(&mut StdSink::new(room.as_mut_slice()), &TEXT),
        Ok(())
    );
    assert_eq!(rt; room, TEXT);
    let mut small = [0; 2];
    let ended = write_all(&mut StdSink::new(small.as_mut_slice()), &TEXT);
    assert_eq!(rt; ended, Err(SinkFault { written: 2 }));
    assert_eq!(rt; small, [b'a', b'b']);
    Ok(())
}
