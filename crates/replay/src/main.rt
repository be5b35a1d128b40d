// Plays a batch of scripts, call by call, and prints beside each answer what has arrived: for a shared stream how many bytes the
// writer has taken and how many are covered, for a memory pipe how many it holds.
// A line `=` ends a script, and its answers end with a line of the bytes that arrived. A script whose first line is `pipe` and a
// capacity of at most 4,096 is played over a memory pipe. One command more than `streamrun` has: `T` makes host turns up to the
// first that answers wait, failed, idle or stopped, and prints their words, but none of `finished 0`.
#![tactic(auto)]

mod hexadecimal;
mod pipes;
mod shared_stream;

use answers::Answer;
use hexadecimal::print_bytes;
use script::Lines;
use script::number::parse_number;
use session::read_limits;
use std::io::Read;

const MAX_CAPACITY: usize = 4096;

// The capacity in a first line of a pipe's script.
fn parse_pipe(line: &[u8]) -> Option<usize> {
    parse_number(line.strip_prefix(b"pipe ")?).filter(|capacity| *capacity <= MAX_CAPACITY)
}

// A script that does not begin answers with one line.
fn refuse(rt: &HostRuntime, answer: Answer) -> anyhow::Result<()> {
    println!(rt; "{answer}")?;
    print_bytes(rt, &[])
}

fn play(rt: &HostRuntime, lines: &[&[u8]]) -> anyhow::Result<()> {
    let [first, rest @ ..] = lines else {
        return refuse(rt, Answer::Misfit);
    };
    if let Some(capacity) = parse_pipe(*first) {
        return pipes::play(rt, capacity, rest);
    }
    match read_limits(*first) {
        Ok(limits) => shared_stream::play(rt, limits, rest),
        Err(answer) => refuse(rt, answer),
    }
}

fn main(rt: HostRuntime) -> anyhow::Result<()> {
    let mut text = Vec::new(rt.alloc());
    rt.stdin().read_to_end(&mut text)?;
    let mut lines = Vec::new(rt.alloc());
    for line in Lines::new(&text) {
        if line == b"=".as_slice() {
            play(&rt, &lines)?;
            lines.clear();
        } else {
            lines.push(line)?;
        }
    }
    Ok(())
}
