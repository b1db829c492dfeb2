//! Lines that are read, and lines that are wrong.
use crate::{Line, LineError, read_line};
use std::alloc::{AllocError, Global};
use std::test::Fail;

#[test]
fn each_form_is_read(rt: HostRuntime) -> Result<(), Fail> {
    let table: [(&'static [u8], Line<'static>); 26] = [
        (b"sign", Line::Sign),
        (b"sync", Line::Sync),
        (b"get 1a", Line::Get(0x1A)),
        (b"set 5 08", Line::Set(5, b"08")),
        (b"read sram 60 1000", Line::Read(0x20, 0x60, 0x1000)),
        (b"read flash 0 8", Line::Read(0xA0, 0, 8)),
        (b"write io 3F aB", Line::Write(0x30, 0x3F, b"aB")),
        (b"pc", Line::Pc),
        (b"pc 1fff", Line::PcTo(0x1FFF)),
        (b"break 2", Line::Break(2)),
        (b"break 2 4", Line::BreakAt(2, 4)),
        (b"clear 2", Line::Clear(2)),
        (b"clear 0 4", Line::ClearAt(0, 4)),
        (b"go", Line::Go),
        (b"to 12345678", Line::To(0x1234_5678)),
        (b"step", Line::Step),
        (b"stop", Line::Stop),
        (b"reset", Line::Reset),
        (b"wait", Line::Wait),
        (b"quit", Line::Quit),
        (b"prog", Line::Prog),
        (b"leave", Line::Leave),
        (b"erase", Line::Erase),
        (b"erase 80", Line::EraseAt(0x80)),
        (b"read sig 0 3", Line::Read(0xB4, 0, 3)),
        (b"\tpc \t 5\t", Line::PcTo(5)),
    ];
    for (line, said) in table {
        assert_eq!(rt; read_line(line), Ok(said));
    }
    Ok(())
}

#[test]
fn the_first_wrong_place_is_told(rt: HostRuntime) -> Result<(), Fail> {
    let table: [(&'static [u8], LineError); 17] = [
        (b"brake 2", LineError::Unknown(1)),
        (b"break", LineError::Missing(6)),
        (b"break\r\n", LineError::Missing(6)),
        (b"break 2 5 7", LineError::Extra(11)),
        (b"set 5 8", LineError::Value(7)),
        (b"set 5 0g", LineError::Value(7)),
        (b"get 100", LineError::Value(5)),
        (b"write flash 0 00", LineError::Value(7)),
        (b"read page 0 1001", LineError::Value(13)),
        (b"read sram 0 ", LineError::Missing(13)),
        (b"pc 123456789", LineError::Value(4)),
        (b"clear 1 100", LineError::Value(9)),
        (b"page 0 00", LineError::Value(8)),
        (b"erase 0 0", LineError::Extra(9)),
        (b"  Go", LineError::Unknown(3)),
        (b"go\r", LineError::Unknown(1)),
        (b"go x", LineError::Extra(4)),
    ];
    for (line, error) in table {
        assert_eq!(rt; read_line(line), Err(error));
    }
    Ok(())
}

#[test]
fn lines_with_no_words_do_nothing(rt: HostRuntime) -> Result<(), Fail> {
    let table: [&'static [u8]; 6] = [b"", b"\n", b" \t\r\n", b"#", b"# go", b"  #go\n"];
    for line in table {
        assert_eq!(rt; read_line(line), Ok(Line::Nothing));
    }
    Ok(())
}

/// So many blanks, `go`, and an end.
fn go_behind(alloc: Global, blanks: usize, end: &[u8]) -> Result<Vec<u8>, AllocError> {
    let mut line = vec![in alloc; b' '; blanks]?;
    line.extend_from_slice(b"go")?;
    line.extend_from_slice(end)?;
    Ok(line)
}

/// Whether the line is read as `go`; None where it is too long.
fn is_go(line: &[u8]) -> Option<bool> {
    match read_line(line) {
        Ok(said) => Some(said == Line::Go),
        Err(LineError::Long) => None,
        Err(_) => Some(false),
    }
}

#[test]
fn a_line_has_at_most_320_bytes(rt: HostRuntime) -> Result<(), Fail> {
    let alloc = rt.alloc();
    let line = go_behind(alloc, 318, b"")?;
    assert_eq!(rt; is_go(line.as_slice()), Some(true));
    let ended = go_behind(alloc, 318, b"\r\n")?;
    assert_eq!(rt; is_go(ended.as_slice()), Some(true));
    let longer = go_behind(alloc, 319, b"")?;
    assert_eq!(rt; is_go(longer.as_slice()), None);
    Ok(())
}
