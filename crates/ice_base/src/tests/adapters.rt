//! The adapters at the sizes that the program uses, and at what a system may answer.
use super::{load, put, read};
use crate::{Failed, StdLoader, StdSink, StdSource};
use std::io::{Read, Write};
use std::test::Fail;
use std::{fs, io, process};

/// The bytes of the longest frame.
const FRAME: usize = 4116;

/// A reader whose first reads are interrupted.
#[derive(Drop)]
struct Interrupted<'a> {
    times: u32,
    bytes: &'a [u8],
}

impl<'a> Read for Interrupted<'a> {
    fn read(&mut self, buf: &mut [u8]) -> io::Result<usize> {
        if self.times > 0 {
            self.times -= 1;
            return Err(io::Error::from(io::ErrorKind::Interrupted));
        }
        self.bytes.read(buf)
    }
}

#[test]
fn an_interrupted_read_is_tried_again(rt: HostRuntime) {
    let mut source = StdSource::of(Interrupted {
        times: 3,
        bytes: b"abc",
    });
    let mut buf = [0u8; 4];
    assert_eq!(rt; read(&mut source, &mut buf), Ok(3));
    assert_eq!(rt; buf, *b"abc\0");
    assert_eq!(rt; source.faults(), 0);
}

#[test]
fn a_frame_is_read_in_pieces_of_512_bytes(rt: HostRuntime) {
    let mut frame = [7u8; FRAME];
    frame[0] = 0x1B;
    frame[4095] = 8;
    frame[4115] = 9;
    let mut source = StdSource::of(frame.as_slice());
    let mut buf = [0u8; 512];
    let pieces = [
        (512usize, 0x1Bu8, 7u8),
        (512, 7, 7),
        (512, 7, 7),
        (512, 7, 7),
        (512, 7, 7),
        (512, 7, 7),
        (512, 7, 7),
        (512, 7, 8),
        (20, 7, 8),
        (0, 7, 8),
    ];
    for (count, first, last) in pieces {
        assert_eq!(rt; read(&mut source, &mut buf), Ok(count));
        assert_eq!(rt; buf[0], first);
        assert_eq!(rt; buf[511], last);
    }
    assert_eq!(rt; buf[19], 9);
    assert_eq!(rt; source.faults(), 0);
}

#[test]
fn more_than_is_read_ahead_is_read_whole(rt: HostRuntime) {
    let bytes = [5u8; 17 * 512];
    let mut source = StdSource::of(bytes.as_slice());
    let mut buf = [0u8; 512];
    for _ in 0..17u8 {
        buf[0] = 0;
        assert_eq!(rt; read(&mut source, &mut buf), Ok(512));
        assert_eq!(rt; buf[0], 5);
    }
    assert_eq!(rt; read(&mut source, &mut buf), Ok(0));
}

/// A writer that takes three bytes at a time, is interrupted before its first writes, and counts how often it is flushed.
#[derive(Drop)]
struct Slow<'a> {
    room: &'a mut [u8],
    interrupts: u32,
    flushes: &'a mut u64,
}

impl<'a> Write for Slow<'a> {
    fn write(&mut self, buf: &[u8]) -> io::Result<usize> {
        if self.interrupts > 0 {
            self.interrupts -= 1;
            return Err(io::Error::from(io::ErrorKind::Interrupted));
        }
        self.room.write(&buf[..buf.len().min(3)])
    }

    fn flush(&mut self) -> io::Result<()> {
        *self.flushes = self.flushes.saturating_add(1);
        Ok(())
    }
}

#[test]
fn each_put_is_written_whole_and_flushed(rt: HostRuntime) {
    let mut room = [0u8; 9];
    let mut flushes = 0u64;
    let mut sink = StdSink::of(Slow {
        room: room.as_mut_slice(),
        interrupts: 2,
        flushes: &mut flushes,
    });
    assert_eq!(rt; put(&mut sink, b"abcdefg"), Ok(()));
    assert_eq!(rt; put(&mut sink, b"h"), Ok(()));
    assert_eq!(rt; sink.faults(), 0);
    drop(sink);
    assert_eq!(rt; flushes, 2);
    assert_eq!(rt; room, *b"abcdefgh\0");
}

/// A writer that takes everything and cannot pass it on.
#[derive(Drop)]
struct Stuck;

impl Write for Stuck {
    fn write(&mut self, buf: &[u8]) -> io::Result<usize> {
        Ok(buf.len())
    }

    fn flush(&mut self) -> io::Result<()> {
        Err(io::Error::from(io::ErrorKind::Other))
    }
}

#[test]
fn a_put_that_is_not_passed_on_fails(rt: HostRuntime) {
    let mut sink = StdSink::of(Stuck);
    assert_eq!(rt; put(&mut sink, b"abc"), Err(Failed));
    assert_eq!(rt; sink.faults(), 1);
}

#[test]
fn a_frame_is_put_whole(rt: HostRuntime) {
    let mut frame = [7u8; FRAME];
    frame[0] = 0x1B;
    frame[4115] = 9;
    let mut room = [0u8; FRAME];
    let mut sink = StdSink::of(room.as_mut_slice());
    assert_eq!(rt; put(&mut sink, &frame), Ok(()));
    drop(sink);
    assert!(rt; room == frame);
}

#[test]
fn an_empty_file_is_loaded_and_read_as_no_bytes(rt: HostRuntime) -> Result<(), Fail> {
    let id = process::id(rt.process());
    let path = format!(in rt.alloc(); "/tmp/ice_base_empty_{id}")?;
    let name = path.as_str();
    fs::write(&rt, name, "")?;
    let mut loader = StdLoader::of(rt);
    let front = load(&mut loader, rt.alloc(), name, 3);
    fs::remove_file(&rt, name)?;
    assert_eq!(rt; front.ok().ok_or("the file")?.len(), 0);
    assert_eq!(rt; loader.faults(), 0);
    let mut source = StdSource::of([].as_slice());
    assert_eq!(rt; read(&mut source, &mut [0u8; 4]), Ok(0));
    Ok(())
}
