// A writer, by the bytes that it took and how many of them its last successful flush covered.
#![tactic(auto)]

ghost use Rattle.std.specs.Prelude.{ℕ, List};
ghost use Rattle.writer.specs.Meaning.{WriteMeans, FlushMeans};
ghost use Rattle.writer.specs.declared.answer.FlushAnswer.{FlushAnswer};
ghost use Rattle.writer.specs.declared.answer.WriteAnswer.{WriteAnswer};

pub mod answer;

pub use answer::{Fault, FlushAnswer, WriteAnswer};

pub trait Writer {
    // What a writer is, as far as any answer depends on it.
    ghost View: { Type 0 };

    ghost view: { Self → View };

    // The bytes taken since the writer was made.
    ghost taken: { View → List ℕ };

    // How many bytes the last successful flush covered.
    ghost covered: { View → ℕ };

    // What the writer tells of a write: the view before, the part offered, each answer that may come, the view after.
    ghost writes: { View → List ℕ → WriteAnswer → View → Type 0 };

    // What the writer tells of a flush: the view before, each answer that may come, the view after.
    ghost flushes: { View → FlushAnswer → View → Type 0 };

    fn write(&mut self, part: &[u8]) -> WriteAnswer
        ensures { writes (view self.old) part.now result (view self.new) };

    fn flush(&mut self) -> FlushAnswer
        ensures { flushes (view self.old) result (view self.new) };

    ghost wrote: { (a b : View) (part : List ℕ) (r : WriteAnswer) → writes a part r b → WriteMeans (taken a) (covered a) part r (taken b) (covered b) };

    ghost flushed: { (a b : View) (r : FlushAnswer) → flushes a r b → FlushMeans (taken a) (covered a) r (taken b) (covered b) };
}
