// The shared stream: a stream, its lock and its handles. Relies on `parts`.
ghost use Rattle.promises.specs.QueueRule.{EachQueued, NoMoreQueued};
ghost use Rattle.shared.specs.LockOf.{queue_of};
ghost use Rattle.shared.specs.TableOf.{handles_of};

use super::parts::Parts;

// One output stream that several handles share. The queue for its lock holds just the handles that are Locking or Locked.
// Its clauses say `shared_view S.view`, and it has no `impl Model`, whose value cannot name the bound's view.
#[derive(Drop)]
pub struct AsyncStdoutStream<S> {
    parts: Parts<S>,
    ghost each: { EachQueued (queue_of parts.lock) (handles_of parts.table) },
    ghost whole: { NoMoreQueued (queue_of parts.lock) (handles_of parts.table) },
}

pub mod calls;
pub mod worker;
