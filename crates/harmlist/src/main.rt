// harmlist reads a recording from standard input and writes its listing, or the line for a refusal, to standard output. It takes no arguments. It only moves
// bytes: the first line to `begin`, one window's lines at a time to `take_block`, and what `finish` answers to the output. It holds one window's lines at a
// time. A read or a write that fails ends in a line on standard error, and no listing is written after a read that failed.
//
// Proved: where no read is taken for failed, it hands `finish` a reading that gives what document 01 says of some bytes, those that came; and it stops reading
// only where it takes the input for ended (`Ended`), or where document 01 says the same of these bytes with any more after them (specs/Input.antt). Assumed of
// `read` is only how many bytes it answers. Tested: that the bytes are the input's, that it is taken for ended at its end alone, also with the most windows,
// that a read which fails is taken for failed, and that the output is written (tests/run, tests/edges).
#![tactic(auto)]

ghost use Rattle.std.specs.Prelude.{◌≡◌, ◌≤◌, length, IfOk};
ghost use Rattle.harmlist.specs.Input.{reading_of, IsPrefixLen, LineRead, BlockRead, BlocksRead, TextRead};

use harmlist_output::finish;
use listing::LISTING_ROOM;
use recordings::{LINE_BYTES, Reading, WINDOW_BYTES, begin, take_block};
use refusals::NO_REFUSAL;
use std::env::{Env, FillError};
use std::io;
use std::io::{ErrorKind, Read, Stdin, Write};

// How often a read is tried in a row without a byte: some seconds. Yielding the processor between two tries would take as long as the others run, and so
// hours on a machine with much to do.
const MOST_TRIES: u32 = 20000000;

// An input, by its reading.
#[derive(Drop)]
enum Input {
    // It ended: the last bytes were fewer than were asked for.
    Ended(Reading),
    // All bytes that were asked for came, and no more are needed.
    Whole(Reading),
}

impl Input {
    fn into_reading(self) -> Reading
        ensures { result ≡ reading_of self }
    {
        match self {
            Input::Ended(reading) | Input::Whole(reading) => reading,
        }
    }
}

// Whether a read that failed may be tried again: a signal came, or a pipe that does not block has nothing yet.
fn is_passing(kind: ErrorKind) -> bool {
    matches!(kind, ErrorKind::Interrupted | ErrorKind::WouldBlock)
}

// Reads what is there to the start of the buffer: no byte at the end of the input.
fn read_some(stdin: &mut Stdin, buffer: &mut [u8]) -> io::Result<usize>
    ensures { IfOk result (λ count. count ≤ length buffer.old) }
{
    for _ in 1..MOST_TRIES {
        match stdin.read(buffer) {
            Err(error) if is_passing(error.kind()) => {}
            outcome => return outcome,
        }
    }
    stdin.read(buffer)
}

// Reads until the buffer is full or the input ends.
fn read_full(stdin: &mut Stdin, buffer: &mut [u8]) -> io::Result<usize>
    ensures { IfOk result (λ count. IsPrefixLen count buffer.new) }
{
    let mut count = 0;
    while count < buffer.len() {
        match read_some(stdin, &mut buffer[count..])? {
            0 => return Ok(count),
            more => count += more,
        }
    }
    Ok(count)
}

// Reads the first line.
fn read_line(stdin: &mut Stdin) -> io::Result<Input>
    ensures { IfOk result LineRead }
{
    let mut line = [0; LINE_BYTES];
    let count = read_full(stdin, &mut line)?;
    let reading = begin(&line[..count]);
    Ok(if count < LINE_BYTES {
        Input::Ended(reading)
    } else {
        Input::Whole(reading)
    })
}

// Reads one window's lines, by way of a buffer that is lent.
fn read_block(
    stdin: &mut Stdin,
    block: &mut [u8; WINDOW_BYTES],
    before: Reading,
) -> io::Result<Input>
    ensures { IfOk result (λ input. BlockRead before input) }
{
    let count = read_full(stdin, block)?;
    let reading = take_block(before, &block[..count]);
    Ok(if count < WINDOW_BYTES {
        Input::Ended(reading)
    } else {
        Input::Whole(reading)
    })
}

// Reads a window's lines at a time, until the first refusal or the end.
fn read_blocks(stdin: &mut Stdin, first: Reading) -> io::Result<Input>
    ensures { IfOk result (λ input. BlocksRead first input) }
{
    let mut block = [0; WINDOW_BYTES];
    let mut reading = first;
    while reading.refusal == NO_REFUSAL {
        match read_block(stdin, &mut block, reading)? {
            Input::Ended(last) => return Ok(Input::Ended(last)),
            Input::Whole(more) => reading = more,
        }
    }
    Ok(Input::Whole(reading))
}

// Reads the input as far as it matters.
fn read_input(stdin: &mut Stdin) -> io::Result<Input>
    ensures { IfOk result TextRead }
{
    match read_line(stdin)? {
        Input::Ended(reading) => Ok(Input::Ended(reading)),
        Input::Whole(first) => read_blocks(stdin, first),
    }
}

// Writes a line to standard error: which stream failed, a colon, and the system's words for why.
fn report(rt: &HostRuntime, stream: &str, error: io::Error) -> io::Result<()> {
    let text = format!(in rt.alloc(); "{error}")?;
    match text.split_once(" (os error ") {
        Some((reason, _)) => eprintln!(rt; "harmlist: {stream}: {reason}"),
        None => eprintln!(rt; "harmlist: {stream}: {text}"),
    }
}

// Writes the listing of an input, or the line for its refusal.
fn write_output(rt: &HostRuntime, input: Input) -> io::Result<()>
    requires { TextRead input }
{
    let mut output = [0; LISTING_ROOM];
    let count = finish(input.into_reading(), &mut output).unwrap();
    match rt.stdout().write_all(&output[..count]) {
        Ok(()) => Ok(()),
        Err(error) => report(rt, "standard output", error),
    }
}

// Whether an argument follows the program's name.
fn has_argument(rt: &HostRuntime) -> bool {
    let mut argument = [0; 1];
    !matches!(rt.arg(1, &mut argument), Err(FillError::NotPresent))
}

fn main(rt: HostRuntime) -> io::Result<()> {
    if has_argument(&rt) {
        return eprintln!(rt;
            "harmlist takes no arguments; it reads standard input\nusage: harmlist < RECORDING"
        );
    }
    match read_input(&mut rt.stdin()) {
        Ok(input) => write_output(&rt, input),
        Err(error) => report(&rt, "standard input", error),
    }
}
