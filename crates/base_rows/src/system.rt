//! Writers that fail in the middle, and the system's streams.

use hx_io::{Failed, Sink, Source, StdSink, StdSource};
use std::io::Write;
use std::test::Fail;
use std::{fs, io};

/// Takes at most so many bytes in each write in turn, or fails where there is no number.
#[derive(Drop)]
struct Takes<'a> {
    turns: &'a [Option<usize>],
    taken: Vec<u8>,
}

impl Write for Takes<'_> {
    fn write(&mut self, buf: &[u8]) -> io::Result<usize> {
        let Some((Some(most), rest)) = self.turns.split_first() else {
            return Err(io::ErrorKind::Other.into());
        };
        self.turns = rest;
        let count = buf.len().min(*most);
        self.taken.extend_from_slice(&buf[..count])?;
        Ok(count)
    }

    fn flush(&mut self) -> io::Result<()> {
        Ok(())
    }
}

#[test]
fn a_writer_may_take_a_piece_in_parts(rt: HostRuntime) -> Result<(), Fail> {
    let alloc = rt.alloc();
    for (turns, answer, taken) in [
        ([Some(1), Some(9)].as_slice(), Ok(()), "abc"),
        (&[Some(2), Some(0), Some(9)], Err(Failed), "ab"),
        (&[Some(1), None, Some(9)], Err(Failed), "a"),
    ] {
        let mut takes = Takes {
            turns,
            taken: Vec::new(alloc),
        };
        let mut sink = StdSink::new(&mut takes);
        assert!(rt; sink.put(b"") == Ok(()));
        assert!(rt; sink.put(b"abc") == answer);
        drop(sink);
        assert!(rt; takes.taken.as_slice() == taken.as_bytes());
    }
    Ok(())
}

#[test]
fn a_sink_and_a_source_share_a_file(rt: HostRuntime) -> Result<(), Fail> {
    let mut sink = StdSink::new(fs::create(&rt, "hx_io_stream")?);
    assert!(rt; sink.put(b"xy") == Ok(()));
    drop(sink);
    let mut source = StdSource::new(fs::open(&rt, "hx_io_stream")?);
    for answer in [Ok(Some(b'x')), Ok(Some(b'y')), Ok(None)] {
        assert!(rt; source.next() == answer);
    }
    fs::remove_file(&rt, "hx_io_stream")?;
    Ok(())
}
