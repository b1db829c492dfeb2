//! The program `ice2`: the words of the command line, the standard streams, files, a fresh flash in memory, and for two of its forms a
//! socket and threads go into a call of `ice_top`, and its status comes out.
#![tactic(auto)]

ghost use Rattle.std.specs.Prelude.{IfOk};
ghost use Rattle.ice_top.specs.Words.{SaysFor, texts};

use ice_base::{
    FnSpawner, MemFlash, OpenGate, StdLink, StdLoader, StdSink, StdSource, begin_on_thread,
};
use ice_inbox::{LineWork, TargetWork};
use ice_top::{Served, Task};
use std::alloc::AllocError;
use std::io::ErrorKind;
use std::net::{Ipv4Addr, Net, TcpListener, TcpStream};
use std::process::ExitCode;
use std::sync::Wait;
use std::thread::Threads;
use std::{env, io};

/// What `ice2 --help` prints.
const HELP: &str = "\
ice2 answers the debug line of a JTAGICE mkII for the program of an ATmega16 or
an ATmega32.

Usage:
  ice2 replay IMAGE STOPS [m16|m32]
  ice2 script IMAGE STOPS [m16|m32]
  ice2 frames
  ice2 gen SEED COUNT
  ice2 list IMAGE [m16|m32]
  ice2 asm [m16|m32]
  ice2 verify IMAGE [m16|m32]
  ice2 serve PORT IMAGE [m16|m32]
  ice2 connect PORT
  ice2 --help
  ice2 --version

replay answers the line for the program of an image.
  IMAGE is the name of an image of the flash: Intel HEX where it ends in .hex,
  else words of two bytes, the low byte first.
  STOPS is one to 64 numbers from 1 to 100000000, with commas between them: a
  run that is stopped, or out at the end of the line, ends behind so many steps,
  the k-th run behind the k-th number and each later one behind the last.
  The part is m16 where none is given.
  Standard input    the bytes that the host sends on the line
  Standard output   the bytes of the replies and break events
  Standard error    one line: the totals of the session, or why it did not open

script debugs the program of an image by lines of text, and answers each before
it reads the next. Numbers are hexadecimal. WORD is the address of an
instruction, half of what a listing says, BYTE that of a byte; HEX is bytes.
  sign, sync, get ID, set ID HEX     the tool, and its parameters
  read SPACE BYTE COUNT              sram, io, flash, page, fuse, lock or sig
  write SPACE BYTE HEX               sram or io
  pc, pc WORD, reset                 where the target stands
  break WORD, clear WORD             breakpoints; comparators with a number from
                                     1 to 4 behind the word address
  go, to WORD, step, stop            runs and steps; each has an event
  wait                               takes the oldest event
  prog, leave                        programming mode, and in it
  erase, erase BYTE, page BYTE HEX   the flash or a page erased, a page written
  quit                               the end
  Standard input    the lines
  Standard output   what each is answered
  Standard error    as of replay

frames lists the bytes of a line: a line of text for each frame, with its number
and its body, for each run of bytes that are no frame, and for the rest.
  Standard input    the bytes
  Standard output   the listing

gen makes a session of COUNT commands from a seed, answers it, and sums it up:
the frames taken, the replies and events sent, and a check of their bodies.
  SEED is 0 to 4294967295, COUNT 0 to 100000.
  Standard output   the summary
  Standard error    as of replay

list lists the program of an image: a line of text for each instruction, up to
the last word that is not FFFF. IMAGE and the part are as of replay.
  Standard output   the listing
  Standard error    one line, where the image gives no program

asm assembles the text of a program into its image, as raw words. The part is
m16 where none is given.
  Standard input    the text, at most 1048576 bytes
  Standard output   the image, up to the last word of the text
  Standard error    one line, where the text is wrong: asm: line N KIND

verify checks the record of a session on the program of an image by a debugger
that plants no breakpoint in flash. IMAGE and the part are as of replay.
  Standard input    the record, at most 67108864 bytes
  Standard output   yes; or bad N, long N or no N with the number of the first
                    line that is no line of a record, with which its runs have
                    more than 100000000 steps, or which the debugger does not do
  Standard error    one line, where the image gives no program

serve waits at a port of this machine for one client, as avrdude or AVaRICE, and
answers its line for the program of an image. The target runs beside it, so that
the client may stop it at any time. IMAGE and the part are as of replay.
  PORT is a number from 1 to 65535; only clients on this machine can connect.
  Standard error    the totals of the session, or why it did not open

connect is the shell of script for a debugger that waits at a port, as serve
does.
  Standard input, standard output   as of script

Exit status       0 done, 2 usage, 3 image, 4 loader, 5 read, 6 write,
                  7 flash, 8 memory, 9 too long, 10 no thread,
                  11 no event or too many, or the link failed, 12 no socket,
                  14 the record does not fit
";

/// What `ice2 --version` prints.
const VERSION: &str = "ice2 0.1.0\n";

/// The exit status where a write failed.
const WRITE_FAILED: u8 = 6;

/// The exit status where there was no memory to begin with.
const NO_MEMORY: u8 = 8;

/// The exit status where a socket failed.
const NO_SOCKET: u8 = 12;

/// Answers `--help` and `--version` as the only word, and else makes the call.
fn main(rt: HostRuntime) -> ExitCode {
    let code = match words_of(&rt) {
        Ok(words) => match text_for(words.as_slice()) {
            Some(text) => print_text(&rt, text),
            None => call(&rt, rt, words.as_slice()),
        },
        Err(AllocError) => no_memory(&rt),
    };
    ExitCode::from(code)
}

/// The words of the command line without the program's name. Where one of them is no UTF-8 they have no form of the call,
/// and count as none.
fn words_of(rt: &HostRuntime) -> Result<Vec<String>, AllocError> {
    let mut words = Vec::new(rt.alloc());
    match env::args(rt) {
        Ok(args) => {
            for word in args.skip(1) {
                words.push(word)?;
            }
            Ok(words)
        }
        Err(error) if error.kind() == ErrorKind::OutOfMemory => Err(AllocError),
        Err(_) => Ok(words),
    }
}

/// The text that answers these words in place of the call.
fn text_for(words: &[String]) -> Option<&'static str> {
    let [word] = words else {
        return None;
    };
    match word.as_str() {
        "--help" => Some(HELP),
        "--version" => Some(VERSION),
        _ => None,
    }
}

/// Prints a text, and gives the exit status.
fn print_text(rt: &HostRuntime, text: &str) -> u8 {
    match print!(rt; "{text}") {
        Ok(()) => 0,
        Err(_) => WRITE_FAILED,
    }
}

/// Makes the call that the words say, and gives its exit status. The system is passed twice: as itself, and as what may open sockets,
/// start threads and wait.
fn call<R>(rt: &HostRuntime, beside: R, words: &[String]) -> u8
where
    R: Net<Listener = TcpListener, Stream = TcpStream> + Threads + Wait + Copy + Send + 'static,
{
    match ice_top::task(words) {
        Task::Local => call_local(rt, words),
        Task::Serve(port) => match accepted(&beside, port) {
            Ok(ends) => serve(rt, beside, words, ends),
            Err(_) => no_socket(rt),
        },
        Task::Connect(port) => match connected(&beside, port) {
            Ok(ends) => connect(rt, words, ends),
            Err(_) => no_socket(rt),
        },
        Task::Usage => call_local(rt, words),
    }
}

/// Makes the call over the standard streams and files.
fn call_local(rt: &HostRuntime, words: &[String]) -> u8 {
    let alloc = rt.alloc();
    let Ok(flash) = fresh_flash(rt, words) else {
        return no_memory(rt);
    };
    let mut loader = StdLoader::of(*rt);
    let mut source = StdSource::of(rt.stdin());
    let mut sink = StdSink::of(rt.stdout());
    let mut notes = StdSink::of(rt.stderr());
    let ended = ice_top::ice2(
        alloc,
        words,
        &mut loader,
        &mut source,
        &mut sink,
        &mut notes,
        flash,
    );
    ended.status.code()
}

/// An erased flash of the part that the words say.
fn fresh_flash(rt: &HostRuntime, words: &[String]) -> Result<MemFlash, AllocError>
    ensures { IfOk result (λ flash. SaysFor (texts words.now) flash.part) }
{
    let alloc = rt.alloc();
    let flash = MemFlash::of_part(alloc, ice_top::part_of(words), Vec::new(alloc))?;
    Ok(flash)
}

/// The two ends of a connection: one is read, and the other written.
#[derive(Drop)]
struct Ends {
    reader: TcpStream,
    writer: TcpStream,
}

/// The two ends of a stream. What is written goes out at once.
fn ends_of(stream: TcpStream) -> io::Result<Ends> {
    stream.set_nodelay(true)?;
    let reader = stream.try_clone()?;
    Ok(Ends {
        reader,
        writer: stream,
    })
}

/// Waits at the port of this machine for one client.
fn accepted<N>(net: &N, port: u16) -> io::Result<Ends>
where
    N: Net<Listener = TcpListener, Stream = TcpStream>,
{
    let listener = TcpListener::bind(net, (Ipv4Addr::LOCALHOST, port))?;
    let (stream, _) = listener.accept()?;
    ends_of(stream)
}

/// Connects to the port of this machine.
fn connected<N>(net: &N, port: u16) -> io::Result<Ends>
where
    N: Net<Listener = TcpListener, Stream = TcpStream>,
{
    ends_of(TcpStream::connect(net, (Ipv4Addr::LOCALHOST, port))?)
}

/// Makes the call over a connection that came in and threads, notes the totals of its session, and gives its exit status.
fn serve<R>(rt: &HostRuntime, beside: R, words: &[String], ends: Ends) -> u8
where
    R: Threads + Wait + Copy + Send + 'static,
{
    let alloc = rt.alloc();
    let Ok(flash) = fresh_flash(rt, words) else {
        return no_memory(rt);
    };
    let mut loader = StdLoader::of(*rt);
    let mut sink = StdSink::of(ends.writer);
    let mut notes = StdSink::of(rt.stderr());
    let targets = FnSpawner::of(move |work: TargetWork<MemFlash, OpenGate, R>| begin_on_thread(
        beside, alloc, work,
    ));
    let mut lines = FnSpawner::of(move |work: LineWork<StdSource<TcpStream>, R>| begin_on_thread(
        beside, alloc, work,
    ));
    let Served { status, totals, .. } = ice_top::ice2_serve(
        &beside,
        alloc,
        words,
        &mut loader,
        StdSource::of(ends.reader),
        &mut sink,
        &mut notes,
        flash,
        OpenGate,
        targets,
        &mut lines,
    );
    if let Some(totals) = totals {
        let _ = eprintln!(rt;
            "cycles {} steps {} writes {} dropped {}",
            totals.cycles, totals.steps, totals.writes, totals.dropped
        );
    }
    status.code()
}

/// Makes the call over a connection, and gives its exit status.
fn connect(rt: &HostRuntime, words: &[String], ends: Ends) -> u8 {
    let mut source = StdSource::of(rt.stdin());
    let mut sink = StdSink::of(rt.stdout());
    let mut notes = StdSink::of(rt.stderr());
    let ended = ice_top::ice2_connect(
        rt.alloc(),
        words,
        StdLink::of(ends.reader, ends.writer),
        &mut source,
        &mut sink,
        &mut notes,
    );
    ended.status.code()
}

/// Notes that a socket failed, and gives the exit status.
fn no_socket(rt: &HostRuntime) -> u8 {
    let _ = eprintln!(rt; "no socket");
    NO_SOCKET
}

/// Notes that there was no memory to begin with, and gives the exit status.
fn no_memory(rt: &HostRuntime) -> u8 {
    let _ = eprintln!(rt; "memory");
    NO_MEMORY
}
