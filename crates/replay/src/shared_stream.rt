// A script over a shared stream, played call by call.
use crate::hexadecimal::print_bytes;
use answers::Answer;
use calls::Call;
use calls::perform::perform;
use memory_writers::MemoryWriter;
use planned_writer::PlannedWriter;
use script_reading::reading::Reading;
use shared::AsyncStdoutStream;
use stream::Limits;
use stream::limits::MAX_BUDGET;
use worker_stream::write_stream::store::MAX_WRITES;
use worker_stream::{AsyncWriteStream, Turn};

// No more turns follow one another: one for each byte and each write, a flush, and the turn that says idle.
const MAX_TURNS: usize = MAX_BUDGET + MAX_WRITES + 2;

const WHOLE_POLL: &[u8] = b"T";

type Shared = AsyncStdoutStream<AsyncWriteStream<PlannedWriter<MemoryWriter>>>;

// What the writer took, and how many bytes its last flush covered.
fn print_counts(rt: &impl Print, shared: &Shared) -> anyhow::Result<()> {
    let memory = shared.stream().writer().inner();
    let taken = memory.contents().len();
    let covered = memory.covered();
    println!(rt; " | {taken} {covered}")?;
    Ok(())
}

// One poll of a background task, as host turns.
fn print_turns(rt: &impl Print, shared: &mut Shared) -> anyhow::Result<()> {
    let mut separator = "";
    for _ in 0..MAX_TURNS {
        let turn = shared.turn();
        if turn == Turn::Finished(0) {
            continue;
        }
        let answer = Answer::from(turn);
        print!(rt; "{separator}{answer}")?;
        separator = ", ";
        match turn {
            Turn::Finished(_) | Turn::Moved(_) | Turn::Flushed => {}
            Turn::NotYet | Turn::Failed | Turn::Idle | Turn::Stopped => break,
        }
    }
    Ok(())
}

fn print_call(rt: &impl Print, shared: &mut Shared, line: &[u8], call: Call) -> anyhow::Result<()> {
    if line == WHOLE_POLL {
        return print_turns(rt, shared);
    }
    let answer = Answer::from(perform(shared, call));
    print!(rt; "{answer}")?;
    Ok(())
}

// A whole poll is read as the turn that it begins with.
fn as_command(line: &[u8]) -> &[u8] {
    if line == WHOLE_POLL { b"t" } else { line }
}

// The lines after the first.
pub(crate) fn play(rt: &HostRuntime, limits: Limits, lines: &[&[u8]]) -> anyhow::Result<()> {
    let mut reading = Reading::new(rt.alloc())?;
    for line in lines {
        reading.read(as_command(*line))?;
    }
    let Reading {
        writer,
        slots,
        calls,
    } = reading;
    let mut shared = AsyncStdoutStream::new(limits, writer);
    let mut calls = calls.iter();
    for (line, slot) in lines.iter().zip(&slots) {
        match slot {
            Some(answer) => print!(rt; "{answer}")?,
            None => {
                if let Some(call) = calls.next() {
                    print_call(rt, &mut shared, *line, *call)?;
                }
            }
        }
        print_counts(rt, &shared)?;
    }
    print_bytes(rt, shared.stream().writer().inner().contents())
}
