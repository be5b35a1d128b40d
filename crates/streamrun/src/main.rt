// Reads a script from standard input, plays it, and prints one line for each answer.
#![tactic(auto)]

use session::run_script;
use std::io::Read;

// At most this much of a script is read.
const MAX: u64 = 32768;

fn main(rt: HostRuntime) -> anyhow::Result<()> {
    let mut text = Vec::new(rt.alloc());
    rt.stdin().take(MAX).read_to_end(&mut text)?;
    // A write for each line, so that no reader of a log meets half a line, and no text of them all is allocated.
    for answer in &run_script(rt.alloc(), &text)? {
        println!(rt; "{answer}")?;
    }
    Ok(())
}
