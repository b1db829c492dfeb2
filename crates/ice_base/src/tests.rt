//! Each call once, through its trait where it has one, and the calls of the memory forms that are to fail.
ghost use Rattle.std.specs.Prelude.{◌<◌};
ghost use Rattle.part_spec.specs.Chip.{m16, words_of};

mod adapters;
mod links;
mod spawners;

use super::*;
use std::alloc::Global;
use std::io::Read;
use std::test::Fail;
use std::{fs, io, process};

fn read<S: Source>(source: &mut S, buf: &mut [u8]) -> Result<usize, Failed> {
    source.read(buf)
}

fn put<K: Sink>(sink: &mut K, piece: &[u8]) -> Result<(), Failed> {
    sink.put(piece)
}

fn load<L: Loader>(
    loader: &mut L,
    alloc: Global,
    name: &str,
    most: usize,
) -> Result<Vec<u8>, LoadError> {
    loader.load(alloc, name, most)
}

fn word<F: Flash>(flash: &F, address: u16) -> u16
    requires { address < words_of m16 }
{
    flash.word(address)
}

fn write_page<F: Flash>(flash: &mut F, page: u16, content: &[u16; 64]) -> Result<(), Failed>
    requires { page < m16.pages }
{
    flash.write_page(page, content)
}

#[test]
fn a_source_in_memory_is_cut_and_fails(rt: HostRuntime) -> Result<(), Fail> {
    let bytes = vec![in rt.alloc(); 1u8, 2, 3, 4, 5, 6, 7]?;
    let cuts = vec![in rt.alloc(); 2usize, 0]?;
    let fails = vec![in rt.alloc(); 2u64]?;
    let mut source = MemSource::of(bytes, cuts, fails);
    let mut buf = [0u8; 4];
    let answers = [Ok(2usize), Err(Failed), Ok(1), Ok(4), Ok(0)];
    for answer in answers {
        assert_eq!(rt; read(&mut source, &mut buf), answer);
    }
    assert_eq!(rt; buf, [4u8, 5, 6, 7]);
    assert_eq!(rt; source.left().len(), 0);
    assert_eq!(rt; source.faults(), 1);
    Ok(())
}

#[test]
fn a_sink_in_memory_has_room_and_fails(rt: HostRuntime) -> Result<(), Fail> {
    let fails = vec![in rt.alloc(); (2u64, 3usize), (2, 1), (3, 9), (4, 2)]?;
    let mut sink = MemSink::of(rt.alloc(), fails, 10)?;
    let puts = [
        ("abcd", Ok(()), "abcd"),
        ("efgh", Err(Failed), "abcdefg"),
        ("xy", Err(Failed), "abcdefgxy"),
        ("pqr", Err(Failed), "abcdefgxyp"),
        ("z", Err(Failed), "abcdefgxyp"),
        ("", Ok(()), "abcdefgxyp"),
    ];
    for (piece, answer, written) in puts {
        assert_eq!(rt; put(&mut sink, piece.as_bytes()), answer, "at {piece}");
        assert_eq!(rt; sink.written(), written.as_bytes(), "at {piece}");
    }
    assert_eq!(rt; sink.faults(), 4);
    Ok(())
}

#[test]
fn a_loader_in_memory_has_the_first_of_a_name(rt: HostRuntime) -> Result<(), Fail> {
    let alloc = rt.alloc();
    let first = (String::from_str(alloc, "a")?, vec![in alloc; 1u8, 2, 3]?);
    let second = (String::from_str(alloc, "a")?, vec![in alloc; 9u8]?);
    let mut loader = MapLoader::of(vec![in alloc; first, second]?);
    assert_eq!(rt;
        load(&mut loader, alloc, "a", 2).ok().ok_or("a")?.as_slice(),
        [1u8, 2].as_slice()
    );
    assert_eq!(rt;
        load(&mut loader, alloc, "b", 2).err(),
        Some(LoadError::Failed)
    );
    assert_eq!(rt; loader.faults(), 1);
    Ok(())
}

#[test]
fn a_flash_in_memory_tears_the_listed_writes(rt: HostRuntime) -> Result<(), Fail> {
    let fails = vec![in rt.alloc(); (2u64, 3usize), (2, 5), (3, 70)]?;
    let mut flash = MemFlash::of(rt.alloc(), fails)?;
    assert_eq!(rt; write_page(&mut flash, 127, &[1; 64]), Ok(()));
    assert_eq!(rt; write_page(&mut flash, 0, &[2; 64]), Err(Failed));
    assert_eq!(rt; write_page(&mut flash, 1, &[3; 64]), Err(Failed));
    let words = [
        (0u16, 2u16),
        (2, 2),
        (3, 0xFFFF),
        (64, 3),
        (127, 3),
        (128, 0xFFFF),
        (8191, 1),
    ];
    for (address, wanted) in words {
        assert_eq!(rt;
            flash.words().get(address as usize),
            Some(&wanted),
            "at {address}"
        );
    }
    assert_eq!(rt; word(&flash, 8191), 1);
    assert_eq!(rt; flash.journal().len(), 0);
    assert_eq!(rt; flash.faults(), 2);
    Ok(())
}

#[test]
fn a_flash_with_a_journal_stops_where_that_is_full(rt: HostRuntime) -> Result<(), Fail> {
    let fails = vec![in rt.alloc(); (2u64, 64usize)]?;
    let mut flash = MemFlash::logged(rt.alloc(), fails, 1)?;
    assert_eq!(rt; write_page(&mut flash, 5, &[7; 64]), Ok(()));
    assert_eq!(rt; write_page(&mut flash, 6, &[8; 64]), Err(Failed));
    let written = LoggedWrite {
        page: 5,
        words: [7; 64],
    };
    assert_eq!(rt; flash.journal(), [written].as_slice());
    assert_eq!(rt; word(&flash, 6 * 64), 0xFFFF);
    assert_eq!(rt; flash.faults(), 1);
    Ok(())
}

#[test]
fn a_flash_in_memory_has_the_size_of_its_part(rt: HostRuntime) -> Result<(), Fail> {
    for (part, size) in [(Part::M16, 8192usize), (Part::M32, 16384)] {
        let flash = MemFlash::of_part(rt.alloc(), part, Vec::new(rt.alloc()))?;
        assert_eq!(rt; flash.part(), part);
        assert_eq!(rt; flash.words().len(), size);
        assert_eq!(rt; flash.words().last(), Some(&0xFFFF));
    }
    Ok(())
}

#[test]
fn the_last_page_of_an_atmega32_is_written(rt: HostRuntime) -> Result<(), Fail> {
    let fails = vec![in rt.alloc(); (2u64, 1usize)]?;
    let mut flash = MemFlash::logged_part(rt.alloc(), Part::M32, fails, 2)?;
    assert_eq!(rt; flash.write_page(255, &[7; 64]), Ok(()));
    assert_eq!(rt; flash.write_page(254, &[8; 64]), Err(Failed));
    let words = [(16319u16, 0xFFFFu16), (16256, 8), (16320, 7), (16383, 7)];
    for (address, wanted) in words {
        assert_eq!(rt;
            flash.words().get(address as usize),
            Some(&wanted),
            "at {address}"
        );
    }
    assert_eq!(rt; flash.word(16383), 7);
    let written = LoggedWrite {
        page: 255,
        words: [7; 64],
    };
    assert_eq!(rt; flash.journal(), [written].as_slice());
    assert_eq!(rt; (flash.part(), flash.faults()), (Part::M32, 1u64));
    Ok(())
}

/// A reader whose reads fail.
#[derive(Drop)]
struct Broken;

impl Read for Broken {
    fn read(&mut self, _buf: &mut [u8]) -> io::Result<usize> {
        Err(io::Error::from(io::ErrorKind::Other))
    }
}

#[test]
fn a_source_over_a_reader_gives_its_bytes_or_fails(rt: HostRuntime) {
    let mut source = StdSource::of([1u8, 2, 3].as_slice());
    let mut buf = [0u8; 2];
    assert_eq!(rt; read(&mut source, &mut buf), Ok(2));
    assert_eq!(rt; read(&mut source, &mut buf), Ok(1));
    assert_eq!(rt; buf, [3u8, 2]);
    assert_eq!(rt; read(&mut source, &mut buf), Ok(0));
    assert_eq!(rt; source.faults(), 0);
    let mut broken = StdSource::of(Broken);
    assert_eq!(rt; read(&mut broken, &mut buf), Err(Failed));
    assert_eq!(rt; broken.faults(), 1);
}

#[test]
fn a_sink_over_a_writer_writes_all_or_fails(rt: HostRuntime) {
    let mut room = [0u8; 5];
    let mut sink = StdSink::of(room.as_mut_slice());
    assert_eq!(rt; put(&mut sink, b"abc"), Ok(()));
    assert_eq!(rt; put(&mut sink, b"def"), Err(Failed));
    assert_eq!(rt; sink.faults(), 1);
    drop(sink);
    assert_eq!(rt; room, *b"abcde");
}

#[test]
fn a_loader_over_files_reads_a_front_or_fails(rt: HostRuntime) -> Result<(), Fail> {
    let id = process::id(rt.process());
    let path = format!(in rt.alloc(); "/tmp/ice_base_{id}")?;
    let name = path.as_str();
    fs::write(&rt, name, "abcd")?;
    let mut loader = StdLoader::of(rt);
    let front = load(&mut loader, rt.alloc(), name, 3);
    fs::remove_file(&rt, name)?;
    assert_eq!(rt; front.ok().ok_or("the file")?.as_slice(), b"abc".as_slice());
    assert_eq!(rt;
        load(&mut loader, rt.alloc(), name, 3).err(),
        Some(LoadError::Failed)
    );
    assert_eq!(rt; loader.faults(), 1);
    Ok(())
}
