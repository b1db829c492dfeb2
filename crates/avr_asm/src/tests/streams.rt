//! Texts of a source, and images put to a sink.
use crate::{AsmError, AsmKind, AssemblyEnd, assemble_source};
use ice_base::{MemSink, MemSource};
use part_spec::Part;
use std::alloc::{AllocError, Global};
use std::test::Fail;

/// A program for one port, as a text and as an image.
const PORT: &[u8] = b"start: ldi r16, 0x01\nout 0x17, r16\nout 0x18,r16\nhere: rjmp here\n";

const IMAGE: &[u8] = b"\x01\xE0\x07\xBB\x08\xBB\xFF\xCF";

/// A source that gives a text at most so many bytes at a time first, and of which the calls numbered in `fails` fail.
fn source_of(
    alloc: Global,
    text: &[u8],
    cut: usize,
    fails: Vec<u64>,
) -> Result<MemSource, AllocError> {
    let cuts = vec![in alloc; cut; 3]?;
    Ok(MemSource::of(text.to_vec(alloc)?, cuts, fails))
}

#[test]
fn an_image_is_put(rt: HostRuntime) -> Result<(), Fail> {
    let alloc = rt.alloc();
    for part in [Part::M16, Part::M32] {
        let mut source = source_of(alloc, PORT, 7, Vec::new(alloc))?;
        let mut sink = MemSink::of(alloc, Vec::new(alloc), 100)?;
        assert!(rt; assemble_source(alloc, part, &mut source, &mut sink) == AssemblyEnd::Okay);
        assert!(rt; sink.written() == IMAGE);
        assert!(rt; source.left().is_empty());
    }
    Ok(())
}

#[test]
fn nothing_is_put_of_a_wrong_text(rt: HostRuntime) -> Result<(), Fail> {
    let alloc = rt.alloc();
    let mut source = source_of(alloc, b"nop\nldi r15, 1", 1, Vec::new(alloc))?;
    let mut sink = MemSink::of(alloc, Vec::new(alloc), 100)?;
    let end = assemble_source(alloc, Part::M16, &mut source, &mut sink);
    let wrong = AsmError::At {
        line: 2,
        kind: AsmKind::Value,
    };
    assert!(rt; end == AssemblyEnd::Refused(wrong));
    assert!(rt; sink.written().is_empty());
    Ok(())
}

#[test]
fn one_byte_too_many_is_read(rt: HostRuntime) -> Result<(), Fail> {
    let alloc = rt.alloc();
    let text = vec![in alloc; b' '; 1_048_580]?;
    let mut source = MemSource::of(text, Vec::new(alloc), Vec::new(alloc));
    let mut sink = MemSink::of(alloc, Vec::new(alloc), 100)?;
    let end = assemble_source(alloc, Part::M32, &mut source, &mut sink);
    assert!(rt; end == AssemblyEnd::Refused(AsmError::Large));
    assert!(rt; source.left().len() == 3);
    assert!(rt; sink.written().is_empty());
    Ok(())
}

#[test]
fn a_failed_read_puts_nothing(rt: HostRuntime) -> Result<(), Fail> {
    let alloc = rt.alloc();
    let mut source = source_of(alloc, PORT, 7, vec![in alloc; 3]?)?;
    let mut sink = MemSink::of(alloc, Vec::new(alloc), 100)?;
    assert!(rt; assemble_source(alloc, Part::M16, &mut source, &mut sink) == AssemblyEnd::Read);
    assert!(rt; sink.written().is_empty());
    assert!(rt; source.faults() == 1);
    Ok(())
}

#[test]
fn a_failed_put_is_told(rt: HostRuntime) -> Result<(), Fail> {
    let alloc = rt.alloc();
    let mut source = source_of(alloc, PORT, 7, Vec::new(alloc))?;
    let mut sink = MemSink::of(alloc, vec![in alloc; (1, 3)]?, 100)?;
    assert!(rt; assemble_source(alloc, Part::M16, &mut source, &mut sink) == AssemblyEnd::Write);
    assert!(rt; sink.written() == IMAGE.get(..3).unwrap_or(&[]));
    Ok(())
}
