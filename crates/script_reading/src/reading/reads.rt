// Reading one line.
ghost use Rattle.std.specs.Prelude.{◌≡◌, IfOk, OnOk};
ghost use Rattle.script_reading.specs.Reading.{read_line, says, makes, plans, unread};
ghost use Rattle.script_reading.specs.ReadingOf.{read_of};
ghost use Rattle.handles.specs.Calls.{call_view};

use super::Reading;
use answers::Answer;
use handles::Call;
use memory_writers::memory::MemoryWriter;
use planned_writer::PlanEntry;
use planned_writer::planned::PlannedWriter;
use script::{Command, parse_command};
use std::alloc::{AllocError, Global};

// How many bytes the writer has room for.
const MEMORY: usize = 32768;

impl<'a> Reading<'a> {
    // Nothing read yet, and an empty memory.
    pub fn new(heap: Global) -> Result<Reading<'a>, AllocError>
        ensures { IfOk result (λ x. read_of x ≡ unread) }
    {
        let memory = vec![in heap; 0u8; MEMORY]?;
        Ok(Reading {
            writer: PlannedWriter::new(MemoryWriter::new(memory)),
            slots: Vec::new(heap),
            calls: Vec::new(heap),
        })
    }

    // The line prints this.
    fn say(&mut self, answer: Answer) -> Result<(), AllocError>
        ensures { OnOk result (read_of self.new ≡ says answer (read_of self.old)) }
    {
        self.slots.push(Some(answer))?;
        Ok(())
    }

    // The line makes this call.
    #[tactic(auto, using(crate::proofs::Readings::calls_more))]
    fn call(&mut self, call: Call<'a>) -> Result<(), AllocError>
        ensures { OnOk result (read_of self.new ≡ makes (call_view call.entry) (read_of self.old)) }
    {
        self.slots.push(None)?;
        self.calls.push(call)?;
        Ok(())
    }

    // One entry more for the plan, before any call.
    #[tactic(auto, using(crate::proofs::Readings::plans_late, crate::proofs::Readings::plans_first))]
    fn plan(&mut self, entry: PlanEntry) -> Result<(), AllocError>
        ensures { OnOk result (read_of self.new ≡ plans (read_of self.old).calls entry (read_of self.old)) }
    {
        if !self.calls.is_empty() {
            return self.say(Answer::Misfit);
        }
        let answer = self.writer.plan(entry).into();
        self.say(answer)
    }

    // Reads one line more.
    pub fn read(&mut self, line: &'a [u8]) -> Result<(), AllocError>
        ensures { OnOk result (read_of self.new ≡ read_line (read_of self.old) line.now) }
    {
        match parse_command(line) {
            None => self.say(Answer::Misfit),
            Some(Command::Call(call)) => self.call(call),
            Some(Command::Plan(entry)) => self.plan(entry),
        }
    }
}
