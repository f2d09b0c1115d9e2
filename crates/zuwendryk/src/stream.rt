// Standard input and output, read and written whole. A call that a signal interrupts, and one at a stream that isn't ready, is made again.
ghost use Rattle.std.specs.Prelude.{◌≡◌, ℕ, ◌<◌, ◌↔◌, length, take, drop, Ok, IsTrue, OnOk, IfOk};
ghost use Rattle.std.specs.Io.{StartsWith, WritesAtMost};
ghost use Rattle.std.specs.Io.KnownBytes.{Appends, Consumes, IsAtEnd, WriteAppends};
ghost use Rattle.std.specs.IoError.{error_kind};
ghost use Rattle.zuwendryk.specs.Stream.{IsPassing, CalledAgain, IsPrefixLen, count_of, AppendsFront, Tells};

use std::io::{Error, ErrorKind, Read, Write};
use std::time::{Clock, Duration};
use std::{io, thread};

// How often a call is made again, a hundredth of a second after the last: a minute in all.
const TRIES: u32 = 6000;

// What std writes after the system's text of an error, before the error's number. No call of std's gives the text alone.
const NUMBER: &[u8] = b" (os error ";

// A stream at which calls are made again, and the clock by which they wait. `last` is the last error after which one was made again.
#[derive(Drop)]
pub struct Waiting<'a, S, C> {
    pub stream: S,
    pub clock: &'a C,
    pub last: Error,
}

// A read that failed, and how many bytes stood at the front of the buffer by then.
#[derive(Drop)]
pub struct Stopped {
    pub count: usize,
    pub why: Error,
}

// Whether a call that failed with this error is worth making again: it was interrupted, or the stream wasn't ready.
fn passing(why: &Error) -> bool
    ensures { IsTrue result ↔ IsPassing (error_kind why.now) }
{
    matches!(why.kind(), ErrorKind::Interrupted | ErrorKind::WouldBlock)
}

// Waits a hundredth of a second.
fn pause(clock: &impl Clock) {
    thread::sleep(clock, Duration::from_millis(10));
}

// Makes a call, and makes it again as long as it fails with a passing error and tries are left. `last` becomes the last error after which it was made
// again.
fn again<C: Clock, F: FnMut() -> io::Result<usize>>(
    clock: &C,
    last: &mut Error,
    call: &mut F,
) -> io::Result<usize>
    requires { F.IsAlwaysCallable call.old }
    ensures { CalledAgain F.FnMut TRIES call.old last.old result call.new last.new }
{
    for _ in 0..TRIES {
        match call() {
            Ok(count) => return Ok(count),
            Err(why) if !passing(&why) => return Err(why),
            Err(why) => *last = why,
        }
        pause(clock);
    }
    call()
}

impl<S: Read, C: Clock> Read for Waiting<'_, S, C> {
    ghost remaining = { λ p. S.remaining p.stream };

    fn read(&mut self, buf: &mut [u8]) -> io::Result<usize> {
        again(self.clock, &mut self.last, &mut || self.stream.read(buf))
    }
}

impl<S: Write, C: Clock> Waiting<'_, S, C> {
    // Writes once.
    fn write_some(&mut self, buf: &[u8]) -> io::Result<usize>
        ensures within { WritesAtMost result buf.now }
        ensures bytes { WriteAppends (S.contents self.old.stream) (S.contents self.new.stream) result buf.now }
    {
        again(self.clock, &mut self.last, &mut || self.stream.write(buf))
    }
}

impl<S: Write, C: Clock> Write for Waiting<'_, S, C> {
    ghost contents = { λ p. S.contents p.stream };

    // A write that takes nothing has no error of its own, and fails for the last one.
    fn write(&mut self, buf: &[u8]) -> io::Result<usize> {
        match self.write_some(buf) {
            Ok(0) if !buf.is_empty() => Err(self.last),
            done => done,
        }
    }

    fn flush(&mut self) -> io::Result<()> {
        self.stream.flush()
    }
}

// Reads until the input ends, the buffer is full or a read fails. The count is that of the bytes at the front of buf. std's read_to_end asks for a
// heap, and its read_exact fails where the input ends. `done` is the answer, so no rest of the buffer is kept beside it.
pub fn read_all<R: Read>(from: &mut R, buf: &mut [u8]) -> Result<usize, Stopped>
    ensures prefix { IsPrefixLen (count_of result) buf.new }
    ensures bytes { Consumes (R.remaining from.old) (R.remaining from.new) (take (count_of result) buf.new) }
    ensures end { IfOk result (λ count. count < length buf.new → IsAtEnd (R.remaining from.new)) }
{
    let mut done = 0;
    while done < buf.len() {
        match from.read(&mut buf[done..]) {
            Ok(0) => break,
            Ok(count) => done += count,
            Err(why) => return Err(Stopped { count: done, why }),
        }
    }
    Ok(done)
}

// Writes until all of buf is taken, or a write fails or takes nothing. Which bytes the system's streams give and take no contract can say. std's own
// write_all makes an interrupted call again at once and without end.
pub fn write_all<W: Write>(to: &mut W, buf: &[u8]) -> io::Result<()>
    ensures none { length buf.now ≡ 0 → result ≡ Ok tt }
    ensures bytes { OnOk result (Appends (W.contents to.old) (W.contents to.new) buf.now) }
    ensures front { AppendsFront (W.contents to.old) (W.contents to.new) buf.now }
{
    let mut rest = buf;
    while !rest.is_empty() {
        match to.write(rest)? {
            0 => return Err(ErrorKind::WriteZero.into()),
            count => rest = &rest[count..],
        }
    }
    Ok(())
}

// Where the number of an error begins in what std writes of it, or the end.
fn text_end(text: &[u8]) -> usize
    ensures prefix { IsPrefixLen result text.now }
    ensures found { result < length text.now → StartsWith (drop result text.now) NUMBER.now }
    ensures first { (k : ℕ) → k < result → ¬ StartsWith (drop k text.now) NUMBER.now }
{
    (0..text.len())
        .find(|at| text[*at..].starts_with(NUMBER))
        .unwrap_or(text.len())
}

// Puts the system's text of an error at the front of text, and answers how many bytes it has. There is no heap for a String.
fn error_text(why: &Error, text: &mut [u8]) -> usize
    ensures { IsPrefixLen result text.new }
{
    let mut rest = &mut text[..];
    let _ = write!(rest, "{why}");
    text_end(text)
}

// Writes a line: what failed, a colon and the system's text of the error. No call is made again, so it isn't one `write!`, which goes by std's
// write_all.
pub fn fail<W: Write>(to: &mut W, what: &[u8], why: &Error)
    ensures { Tells (W.contents to.old) (W.contents to.new) what.now }
{
    let mut text = [0u8; 128];
    let len = error_text(why, &mut text);
    let _ = write_all(to, what);
    let _ = write_all(to, b": ");
    let _ = write_all(to, &text[..len]);
    let _ = write_all(to, b"\n");
}
