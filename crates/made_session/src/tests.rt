//! Made sessions worked by hand, and the bytes of frames in any pieces.
ghost use Rattle.std.specs.Prelude.{◌≤◌};

use crate::tally::Tally;
use crate::{COUNT_LIMIT, made_program, make_session};
use ice_base::{MemFlash, Part, Sink};
use ice_emul::{BeginError, Emulator};
use std::alloc::{AllocError, Global};

/// The summary of a made session on an ATmega16 whose flash is erased.
fn summary_of(alloc: Global, seed: u32, count: u32) -> Result<Vec<u8>, AllocError>
    requires { count ≤ COUNT_LIMIT }
{
    let program = made_program(alloc, Part::M16)?;
    let flash = MemFlash::of(alloc, Vec::new(alloc))?;
    match Emulator::begin(alloc, program.as_slice(), flash) {
        Ok(emulator) => Vec::from_slice(
            alloc,
            make_session(emulator, seed, count).summary.as_slice(),
        ),
        Err(BeginError::Memory(_)) => Err(AllocError),
        Err(BeginError::Flash(_)) => Ok(Vec::new(alloc)),
    }
}

#[test]
fn the_sign_off_alone(rt: HostRuntime) -> Result<(), AllocError> {
    let line = summary_of(rt.alloc(), 7, 0)?;
    assert_eq!(rt;
        line.as_slice(),
        b"frames 1 replies 1 events 0 check 8b8f\n".as_slice()
    );
    Ok(())
}

// A forced stop while the target is stopped is refused, by A5; the sign-off is answered by 80.
#[test]
fn a_forced_stop_at_rest(rt: HostRuntime) -> Result<(), AllocError> {
    let line = summary_of(rt.alloc(), 7, 1)?;
    assert_eq!(rt;
        line.as_slice(),
        b"frames 2 replies 2 events 0 check a5f7\n".as_slice()
    );
    Ok(())
}

#[test]
fn a_command_that_sends_an_event(rt: HostRuntime) -> Result<(), AllocError> {
    let line = summary_of(rt.alloc(), 47, 1)?;
    assert_eq!(rt;
        line.as_slice(),
        b"frames 2 replies 2 events 1 check 3fbd\n".as_slice()
    );
    Ok(())
}

#[test]
fn many_commands_twice(rt: HostRuntime) -> Result<(), AllocError> {
    let first = summary_of(rt.alloc(), 1, 1_000)?;
    let again = summary_of(rt.alloc(), 1, 1_000)?;
    let taken = b"frames 1001 replies 1001 events ";
    assert_eq!(rt;
        &first.as_slice()[..taken.len().min(first.len())],
        taken.as_slice()
    );
    assert_eq!(rt; first.as_slice(), again.as_slice());
    Ok(())
}

/// Four frames: a reply 80, an event, a reply with an empty body, and a reply A5.
const SENT: [u8; 48] = [
    0x1B, 0x00, 0x00, 0x01, 0x00, 0x00, 0x00, 0x0E, 0x80, 0x72, 0x02, 0x1B, 0xFF, 0xFF, 0x06, 0x00,
    0x00, 0x00, 0x0E, 0xE0, 0x05, 0x00, 0x00, 0x00, 0x01, 0x93, 0x1A, 0x1B, 0x01, 0x00, 0x00, 0x00,
    0x00, 0x00, 0x0E, 0x33, 0xF6, 0x1B, 0x02, 0x00, 0x01, 0x00, 0x00, 0x00, 0x0E, 0xA5, 0xB2, 0x7F,
];

#[test]
fn bytes_in_pieces(rt: HostRuntime) {
    for size in [1usize, 2, 7, 48] {
        let mut tally = Tally::new();
        for piece in SENT.chunks(size) {
            assert!(rt; tally.put(piece).is_ok());
        }
        assert_eq!(rt; tally.count.replies, 3);
        assert_eq!(rt; tally.count.events, 1);
        assert_eq!(rt; tally.count.check, 0x6A0E);
        assert_eq!(rt; tally.count.place, 0);
    }
}
