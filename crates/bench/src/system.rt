// Standard input and output of the program, on descriptors that may move a part of a buffer, be not ready, or fail. A call that a signal cut short is made
// again at once. One that was not ready, on a descriptor that does not wait, is made again after a pause, for as long as it takes. Any other failure is told
// by one line on standard error; the program ends with status 0 whatever it met.
// A proved loop has to end, and nothing says that the input does or that a descriptor gets ready: the turns are as many as a u64 counts, which no run uses up.
ghost use Rattle.std.specs.Prelude.{◌≡◌, ◌≤◌, length, take, IfOk};
ghost use Rattle.std.specs.ControlFlow.{ForBreak, ForContinue};

use std::io::{ErrorKind, Read, Write};
use std::ops::ControlFlow;
use std::time::Duration;
use std::{io, thread};

// A failure of the system, which standard error was told of. It holds nothing: there is nothing left to do for it.
#[derive(Clone, Copy)]
pub struct Failed;

// How many of a buffer's first bytes were read, and if reading ended by a failure: the bytes before it count.
#[derive(Clone, Copy)]
pub struct Moved {
    pub count: usize,
    pub end: Result<(), Failed>,
}

// Waits for about a millisecond.
fn pause(rt: &HostRuntime) {
    thread::sleep(rt, Duration::from_millis(1));
}

// Tells what failed, and the system's words for it, without the number that stands behind them. Where there is no memory to find it by, with the number.
fn tell(rt: &HostRuntime, what: &str, error: io::Error) -> Failed {
    let told = match format!(in rt.alloc(); "{error}") {
        Ok(text) => match text.split_once(" (os error ") {
            Some((words, _)) => eprintln!(rt; "{what}: {words}"),
            None => eprintln!(rt; "{what}: {text}"),
        },
        Err(_) => eprintln!(rt; "{what}: {error}"),
    };
    // Where standard error fails too, nothing is left to tell it to.
    match told {
        Ok(()) => Failed,
        Err(_) => Failed,
    }
}

// Lets the call that failed so be made again, or tells what failed.
fn again(rt: &HostRuntime, what: &str, error: io::Error) -> Result<(), Failed> {
    let kind = error.kind();
    if kind == ErrorKind::Interrupted {
        Ok(())
    } else if kind == ErrorKind::WouldBlock {
        pause(rt);
        Ok(())
    } else {
        Err(tell(rt, what, error))
    }
}

// One read behind the first bytes, which stay as they are: another is to follow behind so many, or it was the last. A read of no bytes is the end of the input.
fn read_on(rt: &HostRuntime, buf: &mut [u8], done: usize) -> ControlFlow<Moved, usize>
    requires { done ≤ length buf.old }
    ensures on { ForContinue result (λ n. n ≤ length buf.new) }
    ensures last { ForBreak result (λ m. m.count ≤ length buf.new) }
    ensures kept { take done buf.new ≡ take done buf.old }
{
    let mut input = rt.stdin();
    match input.read(&mut buf[done..]) {
        Ok(got) => {
            let n = done + got;
            if 0 < got && n < buf.len() {
                ControlFlow::Continue(n)
            } else {
                ControlFlow::Break(Moved {
                    count: n,
                    end: Ok(()),
                })
            }
        }
        Err(error) => match again(rt, "bench: cannot read standard input", error) {
            Ok(()) => ControlFlow::Continue(done),
            Err(failed) => ControlFlow::Break(Moved {
                count: done,
                end: Err(failed),
            }),
        },
    }
}

// Reads until the buffer is full, the input ends or a read fails.
pub fn read(rt: &HostRuntime, buf: &mut [u8]) -> Moved
    ensures { result.count ≤ length buf.new }
{
    let mut done = 0;
    'reads: for _ in 0..u64::MAX {
        match read_on(rt, buf, done) {
            ControlFlow::Continue(n) => done = n,
            ControlFlow::Break(moved) => return moved,
        }
    }
    Moved {
        count: done,
        end: Err(Failed),
    }
}

// A write that took no byte of some: it would take none again, and no error says why.
fn none_taken(rt: &HostRuntime) -> Failed {
    match eprintln!(rt; "bench: cannot write standard output: no byte was taken") {
        Ok(()) => Failed,
        Err(_) => Failed,
    }
}

// One write of what stands behind the first bytes: another is to follow behind so many, or it was the last.
fn write_on(rt: &HostRuntime, out: &[u8], done: usize) -> ControlFlow<Result<usize, Failed>, usize>
    requires { done ≤ length out.now }
    ensures on { ForContinue result (λ n. n ≤ length out.now) }
    ensures last { ForBreak result (λ r. IfOk r (λ n. n ≡ length out.now)) }
{
    let mut output = rt.stdout();
    match output.write(&out[done..]) {
        Ok(0) => ControlFlow::Break(Err(none_taken(rt))),
        Ok(put) => {
            let n = done + put;
            if n == out.len() {
                ControlFlow::Break(Ok(n))
            } else {
                ControlFlow::Continue(n)
            }
        }
        Err(error) => match again(rt, "bench: cannot write standard output", error) {
            Ok(()) => ControlFlow::Continue(done),
            Err(failed) => ControlFlow::Break(Err(failed)),
        },
    }
}

// Writes all, or what goes before the first write that fails; answers how many bytes that is. Where there is nothing to write it makes no call.
pub fn write(rt: &HostRuntime, out: &[u8]) -> Result<usize, Failed>
    ensures { IfOk result (λ n. n ≡ length out.now) }
{
    if out.len() == 0 {
        return Ok(0);
    }
    let mut done = 0;
    'writes: for _ in 0..u64::MAX {
        match write_on(rt, out, done) {
            ControlFlow::Continue(n) => done = n,
            ControlFlow::Break(ended) => return ended,
        }
    }
    Err(Failed)
}
