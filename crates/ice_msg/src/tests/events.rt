//! Events, read and written.
use crate::{Bad, Event, read_event, write_event};
use arrayvec::ArrayVec;

/// A stop at the word address 04030201, for the cause 05.
const STOP: [u8; 6] = [0xE0, 0x01, 0x02, 0x03, 0x04, 0x05];

#[test]
fn reads_events(rt: HostRuntime) {
    let stop = Event::Break {
        pc: 0x0403_0201,
        cause: 0x05,
    };
    let rows: [(&[u8], Result<Event, Bad>); 6] = [
        (&[], Err(Bad::Code)),
        (&STOP, Ok(stop)),
        (&STOP[..5], Err(Bad::Length)),
        (&[0xE0, 1, 2, 3, 4, 5, 0], Err(Bad::Length)),
        (&[0xE1, 1, 2, 3, 4, 5], Err(Bad::Code)),
        (&[0x80], Err(Bad::Code)),
    ];
    for (body, wanted) in rows {
        assert_eq!(rt; read_event(body), wanted, "at {body:?}");
    }
}

#[test]
fn writes_events(rt: HostRuntime) {
    let stop = Event::Break {
        pc: 0x0403_0201,
        cause: 0x05,
    };
    let mut out = ArrayVec::new();
    write_event(&stop, &mut out);
    assert_eq!(rt; out.as_slice(), STOP.as_slice());
    assert_eq!(rt; read_event(out.as_slice()), Ok(stop));
}
