use kl_io::*;
use std::alloc::Global;
use std::cell::Cell;
use std::io;
use std::io::{ErrorKind, Read, Write};
use std::random::RandomSource;
use std::test::*;
use std::time::Duration;

/// Reads once, and puts what came.
fn pass<S: Source, K: Sink>(source: &mut S, sink: &mut K) -> Result<usize, Failed> {
    let mut buf = [0u8; 4];
    let count = source.read(&mut buf)?;
    sink.put(&buf[..count])?;
    Ok(count)
}

/// What came of five turns, and the faults of both.
fn passes<S: Source, K: Sink>(
    source: &mut S,
    sink: &mut K,
) -> ([Result<usize, Failed>; 5], u64, u64) {
    let outcomes = [
        pass(source, sink),
        pass(source, sink),
        pass(source, sink),
        pass(source, sink),
        pass(source, sink),
    ];
    (outcomes, source.faults(), sink.faults())
}

/// Whether a source and a sink in memory that are made so pass this in five turns.
fn is_passed(alloc: Global, case: &Case<'_>) -> bool {
    let (Ok(content), Ok(mut sink)) = (
        Vec::from_slice(alloc, case.content),
        MemSink::new(alloc, case.room, case.puts),
    ) else {
        return false;
    };
    let Ok(mut source) = MemSource::new(alloc, content, case.reads) else {
        return false;
    };
    let (outcomes, reads, puts) = passes(&mut source, &mut sink);
    outcomes == case.outcomes && (reads, puts) == case.faults && sink.held() == case.held
}

/// What a source and a sink in memory are made of, and what comes of five turns.
#[derive(Drop)]
struct Case<'a> {
    content: &'a [u8],
    reads: &'a [u64],
    room: usize,
    puts: &'a [u64],
    outcomes: [Result<usize, Failed>; 5],
    faults: (u64, u64),
    held: &'a [u8],
}

#[test]
fn memory_passes_bytes_in_order_and_fails_where_it_is_listed_or_full(rt: HostRuntime) {
    let lost = Err(Failed);
    let late = [9u64; 600];
    let cases = [
        Case {
            content: b"quoted",
            reads: &[],
            room: 6,
            puts: &late,
            outcomes: [Ok(4), Ok(2), Ok(0), Ok(0), Ok(0)],
            faults: (0, 0),
            held: b"quoted",
        },
        // The second put, which is listed, loses the two bytes that the fourth read took.
        Case {
            content: b"nonces",
            reads: &[1, 3],
            room: 90_000,
            puts: &[2],
            outcomes: [lost, Ok(4), lost, lost, Ok(0)],
            faults: (2, 1),
            held: b"nonc",
        },
        // Four bytes pass the room, and the two after them do not.
        Case {
            content: b"quoted",
            reads: &late,
            room: 3,
            puts: &[],
            outcomes: [lost, Ok(2), Ok(0), Ok(0), Ok(0)],
            faults: (0, 1),
            held: b"ed",
        },
        Case {
            content: b"",
            reads: &[],
            room: 0,
            puts: &[],
            outcomes: [Ok(0), Ok(0), Ok(0), Ok(0), Ok(0)],
            faults: (0, 0),
            held: b"",
        },
    ];
    for case in &cases {
        assert!(rt; is_passed(rt.alloc(), case), "in a room of {}", case.room);
    }
}

#[test]
fn adapters_pass_bytes_over_std_and_count_what_has_no_room(rt: HostRuntime) {
    let mut bytes = [0u8; 6];
    let mut source = StdSource::new(b"poll\nlog".as_slice());
    let mut sink = StdSink::new(bytes.as_mut_slice());
    // The writer has no room for the last two bytes.
    let (outcomes, reads, puts) = passes(&mut source, &mut sink);
    let right = outcomes == [Ok(4), Err(Failed), Ok(0), Ok(0), Ok(0)];
    assert!(rt; right && (reads, puts) == (0, 1));
    assert_eq!(rt; bytes, *b"poll\nl");
}

/// A stream that takes and gives one byte at a time, and fails at one of its calls.
#[derive(Drop)]
struct Stream {
    calls: u64,
    fails: u64,
}

impl Stream {
    fn call(&mut self) -> io::Result<()> {
        self.calls = self.calls.saturating_add(1);
        if self.calls == self.fails {
            return Err(io::Error::from(ErrorKind::Interrupted));
        }
        Ok(())
    }
}

impl Read for Stream {
    fn read(&mut self, buf: &mut [u8]) -> io::Result<usize> {
        self.call()?;
        Ok(buf.len().min(1))
    }
}

impl Write for Stream {
    fn write(&mut self, buf: &[u8]) -> io::Result<usize> {
        self.call()?;
        Ok(buf.len().min(1))
    }

    fn flush(&mut self) -> io::Result<()> {
        self.call()
    }
}

/// What comes of one read where the reader fails at this call, with the faults and the reader's calls.
fn read_once(fails: u64) -> (bool, u64, u64) {
    let mut stream = Stream { calls: 0, fails };
    let mut source = StdSource::new(&mut stream);
    let fine = source.read(&mut [0u8; 4]).is_ok();
    let faults = source.faults();
    (fine, faults, stream.calls)
}

/// What comes of one put where the writer fails at this call, with the faults and the writer's calls.
fn put_once(fails: u64) -> (bool, u64, u64) {
    let mut stream = Stream { calls: 0, fails };
    let mut sink = StdSink::new(&mut stream);
    let fine = sink.put(b"ab").is_ok();
    let faults = sink.faults();
    (fine, faults, stream.calls)
}

#[test]
fn an_adapter_asks_std_no_more_than_it_has_to_and_tries_nothing_again(rt: HostRuntime) {
    let read = [(true, 0, 1), (false, 1, 1), (true, 0, 1), (true, 0, 1)];
    // Two writes and a flush.
    let put = [(true, 0, 3), (false, 1, 1), (false, 1, 2), (false, 1, 3)];
    for fails in 0..4 {
        let as_is = (read_once(fails as u64), put_once(fails as u64));
        assert!(rt; as_is == (read[fails], put[fails]), "at call {fails}");
    }
}

/// What comes of draws of four, no and two bytes, with the bytes and the faults.
fn draws<N: Words>(words: &mut N) -> ([Result<(), WordsError>; 3], [u8; 4], [u8; 2], u64) {
    let (mut four, mut two) = ([b'-'; 4], [b'-'; 2]);
    let outcomes = [
        words.fill(&mut four),
        words.fill(&mut []),
        words.fill(&mut two),
    ];
    (outcomes, four, two, words.faults())
}

/// Whether words of these bytes, which fail at these draws, are drawn so.
fn are_drawn(
    alloc: Global,
    content: &[u8],
    fails: &[u64],
    outcomes: [Result<(), WordsError>; 3],
    bytes: &str,
    faults: u64,
) -> bool {
    let Ok(content) = Vec::from_slice(alloc, content) else {
        return false;
    };
    let Ok(mut words) = MemWords::new(alloc, content, fails) else {
        return false;
    };
    let (came, four, two, counted) = draws(&mut words);
    let drawn = bytes.as_bytes().starts_with(&four) && bytes.as_bytes().ends_with(&two);
    drawn && came == outcomes && counted == faults
}

#[test]
fn words_in_memory_are_drawn_in_order_and_end(rt: HostRuntime) {
    let (failed, ended) = (Err(WordsError::Failed), Err(WordsError::Ended));
    let late = [9u64; 600];
    let cases: [(&[u8], &[u64], [Result<(), WordsError>; 3], &str, u64); 4] = [
        (b"abcdefg", &late, [Ok(()); 3], "abcdef", 0),
        (b"abcdefg", &[1, 2], [failed, failed, Ok(())], "----ab", 2),
        // The first draw ends, and is listed too.
        (b"abc", &[1], [ended, Ok(()), Ok(())], "----ab", 0),
        (b"", &[], [ended, Ok(()), ended], "------", 0),
    ];
    for (content, fails, outcomes, bytes, faults) in cases {
        let are = are_drawn(rt.alloc(), content, fails, outcomes, bytes, faults);
        assert!(rt; are, "{bytes}");
    }
}

/// A runtime without random bytes, which counts how often it is asked for them, and without a clock.
#[derive(Drop)]
struct Bare {
    asked: Cell<u64>,
}

impl RandomSource for Bare {
    fn fill_bytes(&self, _buf: &mut [u8]) -> io::Result<()> {
        self.asked.set(self.asked.get().saturating_add(1));
        Err(io::Error::from(ErrorKind::Unsupported))
    }
}

impl std::rt::Clock for Bare {
    fn monotonic(&self) -> io::Result<Duration> {
        Err(io::Error::from(ErrorKind::Unsupported))
    }

    fn since_1970(&self) -> io::Result<Duration> {
        Err(io::Error::from(ErrorKind::Unsupported))
    }
}

#[test]
fn std_gives_words_and_moments_or_counts_a_fault(rt: HostRuntime) {
    let (came, four, two, faults) = draws(&mut StdWords::new(rt));
    let some = came == [Ok(()); 3] && (four, two) != (*b"----", *b"--") && faults == 0;
    let bare = Bare {
        asked: Cell::new(0),
    };
    let (came, four, two, faults) = draws(&mut StdWords::new(&bare));
    let none = came == [Err(WordsError::Failed); 3] && (four, two) == (*b"----", *b"--");
    let asked = bare.asked.get();
    // The year 2020 is past.
    let moments = (StdClock::new(rt).now(), StdClock::new(bare).now());
    let past = moments.0 > 1_577_836_800_000 && moments.1 == 0;
    assert!(rt; some && none && past);
    assert_eq!(rt; (asked, faults), (3, 3));
}

/// What a clock gives at four calls.
fn moments<C: Clock>(clock: &mut C) -> [u64; 4] {
    [clock.now(), clock.now(), clock.now(), clock.now()]
}

#[test]
fn a_clock_in_memory_stays_at_its_last_moment(rt: HostRuntime) -> Result<(), Fail> {
    let cases: [(&[u64], [u64; 4]); 3] = [
        (&[], [0, 0, 0, 0]),
        (&[70, 80], [70, 80, 80, 80]),
        (&[5, 3, 1, 2, 4], [5, 3, 1, 2]),
    ];
    for (given, shown) in cases {
        let content = Vec::from_slice(rt.alloc(), given)?;
        let mut clock = MemClock::new(rt.alloc(), content)?;
        assert!(rt; moments(&mut clock) == shown, "of {} moments", given.len());
    }
    Ok(())
}

#[test]
fn a_fault_prints_what_it_is(rt: HostRuntime) -> Result<(), Fail> {
    let shown = Failed.to_string(rt.alloc())?;
    assert_eq!(rt; shown.as_str(), "input or output failed");
    Ok(())
}
