// Plays a script of 256 writes that wait for their turns, and prints its answers under its name.
#![tactic(auto)]

use playing::play_file;

fn main(rt: HostRuntime) -> anyhow::Result<()> {
    play_file(&rt, "writes-256.script")
}
