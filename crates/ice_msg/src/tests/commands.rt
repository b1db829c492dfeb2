//! Commands, read and written.
ghost use Rattle.std.specs.Prelude.{◌≤◌, length};

use crate::{Bad, Command, read_command, write_command};
use arrayvec::ArrayVec;

/// The commands of a session, with their bodies as they are written.
const SESSION_ROWS: [(Command<'static>, &[u8]); 7] = [
    (Command::SignOff, &[0x00]),
    (Command::GetSignOn, &[0x01]),
    (
        Command::SetParameter {
            id: 0x05,
            value: &[0x08],
        },
        &[0x02, 0x05, 0x08],
    ),
    (Command::GetParameter { id: 0x1A }, &[0x03, 0x1A]),
    (
        Command::SetDeviceDescriptor(&[0x01, 0x02, 0x03]),
        &[0x0C, 0x01, 0x02, 0x03],
    ),
    (Command::GetSync, &[0x0F]),
    (Command::ClearEvents, &[0x22]),
];

/// The commands that read and write the target's memory and program counter.
const STATE_ROWS: [(Command<'static>, &[u8]); 4] = [
    (
        Command::WriteMemory {
            kind: 0x20,
            address: 0x0807_0605,
            bytes: &[0x2A, 0x2B],
        },
        &[0x04, 0x20, 2, 0, 0, 0, 5, 6, 7, 8, 0x2A, 0x2B],
    ),
    (
        Command::ReadMemory {
            kind: 0x20,
            count: 0x0403_0201,
            address: 0x0807_0605,
        },
        &[0x05, 0x20, 1, 2, 3, 4, 5, 6, 7, 8],
    ),
    (Command::WritePc(0x0403_0201), &[0x06, 1, 2, 3, 4]),
    (Command::ReadPc, &[0x07]),
];

/// The commands that run the target and that set where it stops.
const RUN_ROWS: [(Command<'static>, &[u8]); 7] = [
    (Command::Go, &[0x08]),
    (Command::SingleStep, &[0x09]),
    (Command::ForcedStop, &[0x0A, 0x01]),
    (Command::Reset, &[0x0B, 0x01]),
    (
        Command::SetBreak {
            kind: 0x01,
            number: 0x02,
            address: 0x0403_0201,
        },
        &[0x11, 0x01, 0x02, 1, 2, 3, 4, 0x00],
    ),
    (
        Command::ClrBreak {
            number: 0x02,
            address: 0x0403_0201,
        },
        &[0x1A, 0x02, 1, 2, 3, 4],
    ),
    (Command::RunTo(0x0403_0201), &[0x1C, 1, 2, 3, 4]),
];

/// The commands that programming mode takes, with their bodies.
const PROGRAMMING_ROWS: [(Command<'static>, &[u8]); 4] = [
    (Command::ErasePage(0x0403_0201), &[0x0D, 1, 2, 3, 4]),
    (Command::ChipErase, &[0x13]),
    (Command::EnterProg, &[0x14]),
    (Command::LeaveProg, &[0x15]),
];

#[test]
fn writes_each_session_command_and_reads_it_back(rt: HostRuntime) {
    for (command, body) in SESSION_ROWS {
        let mut out = ArrayVec::new();
        write_command(&command, &mut out);
        assert_eq!(rt; out.as_slice(), body);
        assert_eq!(rt; read_command(body), Ok(command), "at {body:?}");
    }
}

#[test]
fn writes_each_state_command_and_reads_it_back(rt: HostRuntime) {
    for (command, body) in STATE_ROWS {
        let mut out = ArrayVec::new();
        write_command(&command, &mut out);
        assert_eq!(rt; out.as_slice(), body);
        assert_eq!(rt; read_command(body), Ok(command), "at {body:?}");
    }
}

#[test]
fn writes_each_run_command_and_reads_it_back(rt: HostRuntime) {
    for (command, body) in RUN_ROWS {
        let mut out = ArrayVec::new();
        write_command(&command, &mut out);
        assert_eq!(rt; out.as_slice(), body);
        assert_eq!(rt; read_command(body), Ok(command), "at {body:?}");
    }
}

#[test]
fn writes_each_programming_command_and_reads_it_back(rt: HostRuntime) {
    for (command, body) in PROGRAMMING_ROWS {
        let mut out = ArrayVec::new();
        write_command(&command, &mut out);
        assert_eq!(rt; out.as_slice(), body);
        assert_eq!(rt; read_command(body), Ok(command), "at {body:?}");
    }
}

#[test]
fn reads_bodies_of_another_length(rt: HostRuntime) {
    let flags: [(&[u8], Result<Command<'_>, Bad>); 45] = [
        (&[], Err(Bad::Code)),
        (&[0x00, 0x00], Err(Bad::Length)),
        (&[0x01, 0x00], Err(Bad::Length)),
        (&[0x02], Err(Bad::Length)),
        (
            &[0x02, 0x05],
            Ok(Command::SetParameter {
                id: 0x05,
                value: &[],
            }),
        ),
        (&[0x03], Err(Bad::Length)),
        (&[0x03, 0x1A, 0x00], Err(Bad::Length)),
        (&[0x04], Err(Bad::Length)),
        (&[0x04, 0x20, 0, 0, 0, 0, 0, 0, 0], Err(Bad::Length)),
        (
            &[0x04, 0x20, 0, 0, 0, 0, 0x60, 0, 0, 0],
            Ok(Command::WriteMemory {
                kind: 0x20,
                address: 0x60,
                bytes: &[],
            }),
        ),
        (
            &[0x04, 0x20, 2, 0, 0, 0, 0x60, 0, 0, 0, 0x2A],
            Err(Bad::Length),
        ),
        (
            &[0x04, 0x20, 1, 0, 0, 0, 0x60, 0, 0, 0, 0x2A, 0x2B],
            Err(Bad::Length),
        ),
        (
            &[0x04, 0x20, 1, 1, 0, 0, 0x60, 0, 0, 0, 0x2A],
            Err(Bad::Length),
        ),
        (&[0x05], Err(Bad::Length)),
        (&[0x05, 0x20, 1, 0, 0, 0, 0, 0, 0], Err(Bad::Length)),
        (&[0x05, 0x20, 1, 0, 0, 0, 0, 0, 0, 0, 0], Err(Bad::Length)),
        (&[0x06, 1, 2, 3], Err(Bad::Length)),
        (&[0x06, 1, 2, 3, 4, 5], Err(Bad::Length)),
        (&[0x07, 0x00], Err(Bad::Length)),
        (&[0x08, 0x00], Err(Bad::Length)),
        (&[0x09, 0x01], Err(Bad::Length)),
        (&[0x09, 0x01, 0x00], Ok(Command::SingleStep)),
        (&[0x09, 0x01, 0x00, 0x00], Err(Bad::Length)),
        (&[0x0A], Ok(Command::ForcedStop)),
        (&[0x0A, 0x7F], Ok(Command::ForcedStop)),
        (&[0x0A, 0x01, 0x00], Err(Bad::Length)),
        (&[0x0B], Ok(Command::Reset)),
        (&[0x0B, 0x7F], Ok(Command::Reset)),
        (&[0x0B, 0x01, 0x00], Err(Bad::Length)),
        (&[0x0C], Ok(Command::SetDeviceDescriptor(&[]))),
        (&[0x0D, 1, 2, 3], Err(Bad::Length)),
        (&[0x0D, 1, 2, 3, 4, 5], Err(Bad::Length)),
        (&[0x0F, 0x00], Err(Bad::Length)),
        (&[0x11, 1, 0, 2, 0, 0, 0], Err(Bad::Length)),
        (
            &[0x11, 1, 0, 2, 0, 0, 0, 0x7F],
            Ok(Command::SetBreak {
                kind: 1,
                number: 0,
                address: 2,
            }),
        ),
        (&[0x11, 1, 0, 2, 0, 0, 0, 0, 0], Err(Bad::Length)),
        (&[0x13, 0x00], Err(Bad::Length)),
        (&[0x14, 0x00], Err(Bad::Length)),
        (&[0x15, 0x00], Err(Bad::Length)),
        (&[0x1A, 0, 2, 0, 0], Err(Bad::Length)),
        (&[0x1A, 0, 2, 0, 0, 0, 0], Err(Bad::Length)),
        (&[0x1C, 2, 0, 0], Err(Bad::Length)),
        (&[0x1C, 2, 0, 0, 0, 0], Err(Bad::Length)),
        (&[0x22, 0x00], Err(Bad::Length)),
        (&[0x12], Err(Bad::Code)),
    ];
    for (body, wanted) in flags {
        assert_eq!(rt; read_command(body), wanted, "at {body:?}");
    }
}

#[test]
fn reads_no_other_code(rt: HostRuntime) {
    let known: [u8; 22] = [
        0x00, 0x01, 0x02, 0x03, 0x04, 0x05, 0x06, 0x07, 0x08, 0x09, 0x0A, 0x0B, 0x0C, 0x0D, 0x0F,
        0x11, 0x13, 0x14, 0x15, 0x1A, 0x1C, 0x22,
    ];
    for code in 0..=255u8 {
        let unknown = read_command(&[code]) == Err(Bad::Code);
        assert_eq!(rt; unknown, !known.contains(&code), "at {code}");
    }
}

#[test]
fn reads_at_most_4104_bytes_of_a_value(rt: HostRuntime) {
    let mut body = [0x55; 4107];
    body[0] = 0x02;
    assert_eq!(rt; read_command(&body), Err(Bad::Length));
    let most = Command::SetParameter {
        id: 0x55,
        value: &body[2..4106],
    };
    assert_eq!(rt; read_command(&body[..4106]), Ok(most));
}

#[test]
fn reads_at_most_4105_bytes_of_a_descriptor(rt: HostRuntime) {
    let mut body = [0x55; 4107];
    body[0] = 0x0C;
    assert_eq!(rt; read_command(&body), Err(Bad::Length));
    let most = Command::SetDeviceDescriptor(&body[1..4106]);
    assert_eq!(rt; read_command(&body[..4106]), Ok(most));
}

/// The body of a write of these bytes to the SRAM.
fn write_of(bytes: &[u8]) -> ArrayVec<u8, 4106>
    requires { length bytes.now ≤ 4096 }
{
    let command = Command::WriteMemory {
        kind: 0x20,
        address: 0x60,
        bytes,
    };
    let mut out = ArrayVec::new();
    write_command(&command, &mut out);
    out
}

#[test]
fn writes_what_fills_a_body(rt: HostRuntime) {
    let bytes = [0x2A; 4096];
    let out = write_of(&bytes);
    assert_eq!(rt; out.len(), 4106);
    let front = [0x04, 0x20, 0x00, 0x10, 0, 0, 0x60, 0, 0, 0, 0x2A];
    assert_eq!(rt; &out.as_slice()[..11], front.as_slice());
    let command = Command::WriteMemory {
        kind: 0x20,
        address: 0x60,
        bytes: &bytes,
    };
    assert_eq!(rt; read_command(out.as_slice()), Ok(command));
}
