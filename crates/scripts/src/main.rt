// Plays each recorded script and prints its answers under its name.
#![tactic(auto)]

use playing::play_file;

fn main(rt: HostRuntime) -> anyhow::Result<()> {
    for path in [
        "handover.script",
        "slow-writer.script",
        "fault.script",
        "two-hooks.script",
        "flush-after-write.script",
        "two-artists.script",
        "sixteen-in-line.script",
        "fault-while-waiting.script",
        "cancel-while-held.script",
    ] {
        play_file(&rt, path)?;
    }
    Ok(())
}
