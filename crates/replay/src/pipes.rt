// A script over a memory pipe: direct writes, check_write and flush.
use crate::hexadecimal::print_bytes;
use answers::Answer;
use calls::Call;
use memory_pipe::MemoryOutputPipe;
use script::{Command, parse_command};
use stream::OutputStream;

fn answer_to(pipe: &mut MemoryOutputPipe, line: &[u8]) -> Answer {
    match parse_command(line) {
        Some(Command::Call(Call::Write(bytes))) => pipe.write(bytes).into(),
        Some(Command::Call(Call::CheckWrite)) => pipe.check_write().into(),
        Some(Command::Call(Call::Flush)) => pipe.flush().into(),
        _ => Answer::Misfit,
    }
}

// The lines after the first, with how many bytes the pipe holds beside each answer.
pub(crate) fn play(rt: &HostRuntime, capacity: usize, lines: &[&[u8]]) -> anyhow::Result<()> {
    let mut pipe = MemoryOutputPipe::new(vec![in rt.alloc(); 0u8; capacity]?);
    for line in lines {
        let answer = answer_to(&mut pipe, *line);
        let held = pipe.contents().len();
        println!(rt; "{answer} | {held}")?;
    }
    print_bytes(rt, pipe.contents())
}
