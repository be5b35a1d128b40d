// A script's lines, read into a plan and a list of calls. Relies on `script`, `answers` and `handles`.
use answers::Answer;
use handles::Call;
use memory_writers::memory::MemoryWriter;
use planned_writer::planned::PlannedWriter;

// No `impl Model`: whoever plays it takes its fields apart, and their clauses speak of them.
#[derive(Drop)]
pub struct Reading<'a> {
    pub writer: PlannedWriter<MemoryWriter>,
    // What each line prints: an answer said when it was read, or `None` where the next call of `calls` answers.
    pub slots: Vec<Option<Answer>>,
    // The calls by themselves, since they are run as one list.
    pub calls: Vec<Call<'a>>,
}

pub mod reads;
