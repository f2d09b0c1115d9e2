// Prints the card of the sheet on standard input. The card's text comes from a proved function; this program reads and writes.
// A stream that fails gets one line on standard error.
#![tactic(auto)]

mod stream;
mod text;

use dag::LONGEST;
use std::io::Error;
use stream::{Stopped, Waiting};

// What is written where an input looks like text.
const HINT: &[u8] =
    b"zuwendryk: the input looks like text; a text sheet is assembled first: sheet assemble FILE -o SHEET\n";

// Which stream failed, and why.
enum Failure {
    Input(Stopped),
    Output(Error),
}

// Reads a sheet and writes its card, and the hint where the input looks like text. No call has failed at the start: the system's error 0 has the text
// `Success`.
fn run(rt: &HostRuntime) -> Result<(), Failure> {
    let mut input = [0u8; LONGEST + 1];
    let mut text = [0u8; 300000];
    let mut stdin = Waiting {
        stream: rt.stdin(),
        clock: rt,
        last: Error::from_raw_os_error(0),
    };
    let len = stream::read_all(&mut stdin, &mut input).map_err(Failure::Input)?;
    let end = card::card(&input[..len], &mut text);
    let mut stdout = Waiting {
        stream: rt.stdout(),
        clock: rt,
        last: stdin.last,
    };
    stream::write_all(&mut stdout, &text[..end]).map_err(Failure::Output)?;
    if text::is_text(&input[..len]) {
        let mut stderr = Waiting {
            stream: rt.stderr(),
            clock: rt,
            last: stdout.last,
        };
        let _ = stream::write_all(&mut stderr, HINT);
    }
    Ok(())
}

fn main(rt: HostRuntime) {
    match run(&rt) {
        Ok(()) => {}
        Err(Failure::Input(stopped)) => stream::fail(
            &mut rt.stderr(),
            b"zuwendryk: standard input",
            &stopped.why,
        ),
        Err(Failure::Output(why)) => stream::fail(
            &mut rt.stderr(),
            b"zuwendryk: standard output",
            &why,
        ),
    }
}
