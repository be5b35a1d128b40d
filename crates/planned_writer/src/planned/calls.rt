// The calls of a planned writer, by the entries left of its plan.
ghost use Rattle.std.specs.Prelude.{◌≡◌, [], take, is_ok, if◌then◌else◌, nat_lt, OnErr, IfSome, IfNone};
ghost use Rattle.planned_writer.specs.Planned.{PlannedView, planned_view, view_below, unplanned, appended, with_next, most_entries, refusal_number, PlannedWrites, PlannedFlushes};
ghost use Rattle.planned_writer.specs.Handed.{planned_wrote};
ghost use Rattle.std.proofs.Common.{rules};

use super::{PlanFull, PlannedWriter};
use crate::plan::PlanEntry;
use arrayvec::ArrayVec;
use writer::{Fault, FlushAnswer, WriteAnswer, Writer};

impl PlanFull {
    // The refusal's number, by which the rules name it: `u8::from` would not say what number it is.
    pub fn code(&self) -> u8
        ensures value { result ≡ refusal_number self.now }
    {
        3
    }
}

impl<W> PlannedWriter<W> {
    pub fn new(inner: W) -> Self
        ensures made { planned_view result ≡ unplanned inner }
    {
        PlannedWriter {
            inner,
            entries: ArrayVec::new(),
            spent: 0,
        }
    }

    // Appends an entry to the plan; entries that are spent count too.
    pub fn plan(&mut self, entry: PlanEntry) -> Result<(), PlanFull>
        ensures told { is_ok result ≡ nat_lt (planned_view self.old).planned most_entries }
        ensures left { planned_view self.new ≡ (if is_ok result then appended entry (planned_view self.old) else planned_view self.old) }
        ensures same { OnErr result (self.new ≡ self.old) }
    {
        self.entries.try_push(entry).map_err(|_| PlanFull)
    }

    pub fn inner(&self) -> &W
        ensures value { result.now ≡ (planned_view self.now).below }
    {
        &self.inner
    }

    pub fn into_inner(self) -> W
        ensures value { result ≡ (planned_view self).below }
    {
        self.inner
    }

    // Spends the next entry.
    fn spend(&mut self) -> Option<PlanEntry>
        ensures spent { IfSome result (λ e. planned_view self.old ≡ with_next e (planned_view self.new)) }
        ensures none { IfNone result ((planned_view self.old).plan ≡ []) }
        ensures same { IfNone result (self.new ≡ self.old) }
    {
        let entry = self.entries.get(self.spent).copied()?;
        self.spent += 1;
        Some(entry)
    }
}

// The first bytes of a part, at most so many.
fn first_bytes(part: &[u8], most: u16) -> &[u8]
    ensures value { result.now ≡ take most part.now }
{
    &part[..usize::from(most).min(part.len())]
}

impl<W: Writer> Writer for PlannedWriter<W> {
    ghost View = { PlannedView W.Writer.View };

    ghost view = { λ p. view_below W.Writer.view (planned_view p) };

    ghost taken = { λ v. W.Writer.taken v.below };

    ghost covered = { λ v. W.Writer.covered v.below };

    ghost writes = { λ a part r b. PlannedWrites W.Writer.writes a.plan a part r b };

    ghost flushes = { λ a r b. PlannedFlushes W.Writer.flushes a.plan a r b };

    ghost wrote = { λ a b part r w. planned_wrote W.Writer.wrote a.plan a b part r w };

    ghost flushed = { Prim.search rules };

    fn write(&mut self, part: &[u8]) -> WriteAnswer {
        match self.spend() {
            None => self.inner.write(part),
            Some(PlanEntry::AtMost(most)) => self.inner.write(first_bytes(part, most)),
            Some(PlanEntry::NotYet) => WriteAnswer::NotYet,
            Some(PlanEntry::Fail(code)) => WriteAnswer::Failed(Fault::Device(code)),
        }
    }

    fn flush(&mut self) -> FlushAnswer {
        match self.spend() {
            None | Some(PlanEntry::AtMost(_)) => self.inner.flush(),
            Some(PlanEntry::NotYet) => FlushAnswer::NotYet,
            Some(PlanEntry::Fail(code)) => FlushAnswer::Failed(Fault::Device(code)),
        }
    }
}
