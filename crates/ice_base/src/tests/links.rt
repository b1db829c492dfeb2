//! Links in memory and over a socket.
use crate::{Failed, Link, MemLink, StdLink};
use std::io::{Read, Write};
use std::net::{Shutdown, TcpListener, TcpStream};
use std::test::Fail;
use std::time::Duration;
use std::{io, thread};

fn send<L: Link>(link: &mut L, piece: &[u8]) -> Result<(), Failed> {
    link.send(piece)
}

fn receive<L: Link>(link: &mut L, buf: &mut [u8]) -> Result<usize, Failed> {
    link.receive(buf)
}

#[test]
fn a_link_in_memory_is_cut_has_room_and_fails(rt: HostRuntime) -> Result<(), Fail> {
    let alloc = rt.alloc();
    let bytes = vec![in alloc; 1u8, 2, 3, 4, 5, 6, 7]?;
    let cuts = vec![in alloc; 2usize, 0]?;
    let fails = vec![in alloc; 2u64, 5]?;
    let mut link = MemLink::of(alloc, bytes, cuts, fails, 5)?;
    let mut buf = [0u8; 4];
    assert_eq!(rt; receive(&mut link, &mut buf), Ok(2));
    assert_eq!(rt; receive(&mut link, &mut buf), Err(Failed));
    assert_eq!(rt; send(&mut link, b"abc"), Ok(()));
    assert_eq!(rt; receive(&mut link, &mut buf), Ok(1));
    assert_eq!(rt; buf, [3u8, 2, 0, 0]);
    assert_eq!(rt; send(&mut link, b"d"), Err(Failed));
    assert_eq!(rt; send(&mut link, b"def"), Err(Failed));
    assert_eq!(rt; link.sent(), b"abc".as_slice());
    assert_eq!(rt; send(&mut link, b"de"), Ok(()));
    assert_eq!(rt; receive(&mut link, &mut buf), Ok(4));
    assert_eq!(rt; buf, [4u8, 5, 6, 7]);
    assert_eq!(rt; receive(&mut link, &mut buf), Ok(0));
    assert_eq!(rt; link.sent(), b"abcde".as_slice());
    assert_eq!(rt; link.incoming().len(), 0);
    assert_eq!(rt; link.faults(), 3);
    Ok(())
}

/// How long a test waits for its partner.
const PATIENCE: u64 = 20;

/// Sends back three bytes and a mark, and closes the socket.
fn answer(mut stream: TcpStream) -> io::Result<()> {
    let mut heard = [0u8; 3];
    stream.read_exact(&mut heard)?;
    stream.write_all(&heard)?;
    stream.write_all(b"!")
}

#[test]
fn a_link_over_a_socket_is_answered_and_fails_once_shut(rt: HostRuntime) -> Result<(), Fail> {
    let listener = TcpListener::bind(&rt, "127.0.0.1:0")?;
    let client = TcpStream::connect(&rt, listener.local_addr()?)?;
    let (stream, _) = listener.accept()?;
    client.set_read_timeout(Some(Duration::from_secs(PATIENCE)))?;
    stream.set_read_timeout(Some(Duration::from_secs(PATIENCE)))?;
    let partner = thread::spawn(&rt, move || answer(client))?;
    let ours = stream.try_clone()?;
    let mut link = StdLink::of(stream.try_clone()?, stream);
    assert_eq!(rt; send(&mut link, b"abc"), Ok(()));
    let mut byte = [0u8; 1];
    for wanted in *b"abc!" {
        assert_eq!(rt; receive(&mut link, &mut byte), Ok(1));
        assert_eq!(rt; byte, [wanted]);
    }
    assert_eq!(rt; receive(&mut link, &mut byte), Ok(0));
    partner.join(&rt)?;
    assert_eq!(rt; link.faults(), 0);
    ours.shutdown(Shutdown::Write)?;
    assert_eq!(rt; send(&mut link, b"d"), Err(Failed));
    assert_eq!(rt; link.faults(), 1);
    Ok(())
}
