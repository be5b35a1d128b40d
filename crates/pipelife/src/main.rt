// The life of a memory pipe of 3 bytes, and of one of 0: a line for each call. Relies on `memory_pipe`, and on `answers` for what is printed.
#![tactic(auto)]

use answers::Answer;
use memory_pipe::MemoryOutputPipe;
use std::io;
use stream::OutputStream;

fn write<S: OutputStream>(rt: &impl Print, stream: &mut S, bytes: &[u8]) -> io::Result<()> {
    let length = bytes.len();
    let answer = Answer::from(stream.write(bytes));
    println!(rt; "write {length}: {answer}")
}

fn check_write<S: OutputStream>(rt: &impl Print, stream: &mut S) -> io::Result<()> {
    let answer = Answer::from(stream.check_write());
    println!(rt; "check_write: {answer}")
}

fn flush<S: OutputStream>(rt: &impl Print, stream: &mut S) -> io::Result<()> {
    let answer = Answer::from(stream.flush());
    println!(rt; "flush: {answer}")
}

fn pipe_of_three(rt: &(impl Print + AllocGlobal)) -> anyhow::Result<()> {
    println!(rt; "pipe of 3")?;
    let mut pipe = MemoryOutputPipe::new(vec![in rt.alloc(); 0; 3]?);
    write(rt, &mut pipe, b"abcd")?;
    write(rt, &mut pipe, b"abc")?;
    check_write(rt, &mut pipe)?;
    flush(rt, &mut pipe)?;
    write(rt, &mut pipe, b"")?;
    write(rt, &mut pipe, b"d")?;
    let contents = pipe.contents();
    println!(rt; "contents: {contents:?}")?;
    Ok(())
}

fn pipe_of_none(rt: &(impl Print + AllocGlobal)) -> anyhow::Result<()> {
    println!(rt; "pipe of 0")?;
    let mut pipe = MemoryOutputPipe::new(vec![in rt.alloc()]?);
    check_write(rt, &mut pipe)?;
    flush(rt, &mut pipe)?;
    write(rt, &mut pipe, b"")?;
    Ok(())
}

fn main(rt: HostRuntime) -> anyhow::Result<()> {
    pipe_of_three(&rt)?;
    pipe_of_none(&rt)
}
