// 100,000 writes of sixteen bytes over a memory that holds them all, with a host turn after each. `bench/run` times it.
#![tactic(auto)]

use memory_writers::MemoryWriter;
use stream::limits::MAX_BUDGET;
use stream::{Limits, OutputStream};
use worker_stream::{AsyncWriteStream, Turn};
use writer::Writer;

const WRITES: usize = 100000;

const LENGTH: usize = 16;

// Whether the write was accepted and its turn finished it.
fn passed(stream: &mut AsyncWriteStream<MemoryWriter>, bytes: &[u8]) -> bool {
    stream.write(bytes).is_ok() && matches!(stream.turn(), Turn::Finished(_))
}

// How many writes went through. (`filter` on the write itself takes a tenth longer.)
fn play(stream: &mut AsyncWriteStream<MemoryWriter>) -> usize {
    (0..=u8::MAX)
        .cycle()
        .take(WRITES)
        .map(|byte| passed(stream, &[byte; LENGTH]))
        .filter(|went| *went)
        .count()
}

// The largest budget, and one handle, which a worker stream alone does not ask for.
fn largest_budget() -> Limits {
    Limits::new(MAX_BUDGET, 1).unwrap()
}

fn main(rt: HostRuntime) -> anyhow::Result<()> {
    let memory = vec![in rt.alloc(); 0u8; WRITES * LENGTH]?;
    let mut stream = AsyncWriteStream::new(largest_budget(), MemoryWriter::new(memory));
    let count = play(&mut stream);
    let bytes = stream.writer().contents();
    let taken = bytes.len();
    let sum = bytes
        .iter()
        .fold(0u32, |sum, byte| sum.wrapping_add(u32::from(*byte)));
    println!(rt; "{count} writes, {taken} bytes taken, sum {sum}")?;
    Ok(())
}
