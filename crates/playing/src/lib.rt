// Plays the script in a file. Relies on `session` for the answers of a script.
#![tactic(auto)]

use session::run_script;
use std::fs;

// Prints the file's name on a line, and then each answer of its script, on a line of its own.
pub fn play_file(rt: &HostRuntime, path: &str) -> anyhow::Result<()> {
    let text = fs::read(rt, path)?;
    println!(rt; "{path}")?;
    for answer in &run_script(rt.alloc(), &text)? {
        println!(rt; "{answer}")?;
    }
    Ok(())
}
