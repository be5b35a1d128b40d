// Joining the line, taking a grant and giving it back. Relies on `handles` for the refusal while the lock is held.
ghost use Rattle.std.specs.Prelude.{◌≡◌, ◌<◌, true, false, [], ◌∷◌, ◌++◌, length, MatchOption, MatchResult, ◌==◌};
ghost use Rattle.promises.specs.SharedView.{holds, without};
ghost use Rattle.shared.specs.LockOf.{queue_of};

use super::{Grant, Lock};
use arrayvec::ArrayVec;
use handles::LockHeld;

impl Grant {
    // Whose grant it is.
    pub(crate) fn handle(&self) -> usize
        ensures { result ≡ self.now.handle }
    {
        self.handle
    }
}

impl Lock {
    pub fn new() -> Lock
        ensures { queue_of result ≡ [] }
    {
        Lock {
            queue: ArrayVec::new(),
        }
    }

    // Whether nobody holds the lock.
    pub fn is_free(&self) -> bool
        ensures { result ≡ (length (queue_of self.now) == 0) }
    {
        self.queue.is_empty()
    }

    // The question before a call that needs no grant.
    pub(crate) fn check_free(&self) -> Result<(), LockHeld>
        ensures { MatchResult result (λ _. queue_of self.now ≡ []) (λ _. 0 < length (queue_of self.now)) }
    {
        if self.is_free() {
            Ok(())
        } else {
            Err(LockHeld)
        }
    }

    // A handle joins the end of the line.
    pub(crate) fn join(&mut self, handle: usize)
        requires { length (queue_of self.old) < 16 }
        ensures { queue_of self.new ≡ queue_of self.old ++ handle ∷ [] }
    {
        self.queue.push(handle);
    }

    // The grant of the handle, if it is first.
    pub(crate) fn grant(&self, handle: usize) -> Option<Grant>
        ensures { MatchOption result (holds handle (queue_of self.now) ≡ false) (λ g. (holds handle (queue_of self.now) ≡ true) × (g.handle ≡ handle)) }
    {
        match self.queue.first() {
            Some(first) if *first == handle => Some(Grant { handle }),
            _ => None,
        }
    }

    // The holder keeps the lock.
    pub(crate) fn keep(&mut self, grant: Grant)
        ensures { self.new ≡ self.old }
    {
        let Grant { handle: _ } = grant;
    }

    // The holder lets go: the first in line holds the lock from now on.
    pub(crate) fn hand_on(&mut self, grant: Grant)
        ensures { queue_of self.new ≡ without grant.handle (queue_of self.old) }
    {
        let Grant { handle } = grant;
        self.leave(handle);
    }

    // A handle leaves the queue, wherever it stands.
    pub(crate) fn leave(&mut self, handle: usize)
        ensures { queue_of self.new ≡ without handle (queue_of self.old) }
    {
        self.queue.retain(|other| *other != handle);
    }
}
