// The commands of a script. Relies on a shared stream's calls and a writer's plan entries.
use handles::Call;
use planned_writer::PlanEntry;

// One line of a script after the first; the bytes are borrowed from the line.
#[derive(Clone, Copy, PartialEq, Eq, Debug)]
pub enum Command<'a> {
    Call(Call<'a>),
    // One more entry for the writer's plan.
    Plan(PlanEntry),
}
