// The polls of a handle: the grant is taken before the operation on the stream, and given back after it. Relies on `operations`, the lock and the table.
ghost use Rattle.std.specs.Prelude.{◌≡◌, ◌<◌, true, length, nat_lt};
ghost use Rattle.promises.specs.Polls.{write_by, first_by, second_by, second_stage, poll_write, poll_flush, drop_handle};
ghost use Rattle.promises.specs.SharedView.{handle, holds};
ghost use Rattle.promises.specs.Steps.{Gives};
ghost use Rattle.handles.specs.declared.handle.HandleState.TheVariants.{Locking};
ghost use Rattle.shared.specs.Acquiring.{is_open, wants, Room, First, Acquires};
ghost use Rattle.shared.specs.GivingBack.{given_back, answered_by};
ghost use Rattle.shared.specs.LockOf.{queue_of};
ghost use Rattle.shared.specs.PartsOf.{parts_view};

use super::Parts;
use super::operations::{begin_flush, end_flush, write_or_wait};
use crate::locked_async::lock::Grant;
use crate::locked_async::table::changes::{Met, Request};
use handles::{HandleError, HandleState, NoSuchHandle, Poll};
use stream::{OutputStream, StreamError};

// How asking for the lock ended.
pub enum Acquired {
    // Closed, or nothing to do.
    Answered,
    InLine,
    Granted(Grant),
}

// What these calls ask of one another (room in the line, a handle that is Locking, a holder) are conditions of their own:
// as ghost fields they would have to hold between the two halves of a change to the line and to the table.
impl<S: OutputStream> Parts<S> {
    // The grant of a handle that is first in the queue. A grant has to be given back, so no `map_or` may let one go.
    fn first(&self, number: usize) -> Acquired
        ensures { First number (queue_of self.now.lock) result }
    {
        match self.lock.grant(number) {
            Some(grant) => Acquired::Granted(grant),
            None => Acquired::InLine,
        }
    }

    // Takes the lock for a handle, or has it stand in line.
    fn acquire(&mut self, number: usize, request: Request) -> Result<Acquired, NoSuchHandle>
        requires { Room number (parts_view S.view self.old) }
        ensures { Acquires number request (parts_view S.view self.old) result (parts_view S.view self.new) }
    {
        match self.table.ask(number, request)? {
            Met::Answered => Ok(Acquired::Answered),
            Met::Joins => {
                self.lock.join(number);
                Ok(self.first(number))
            }
            Met::InLine => Ok(self.first(number)),
        }
    }

    // Gives the grant back: kept on not yet, else handed on.
    fn give_back<T: Copy>(
        &mut self,
        grant: Grant,
        outcome: Result<Poll<T>, StreamError>,
        mark_if_ready: bool,
        mark_if_closed: bool,
    )
        ensures { parts_view S.view self.new ≡ given_back outcome mark_if_ready mark_if_closed grant.handle (parts_view S.view self.old) }
    {
        match outcome {
            Ok(Poll::Pending) => {
                let mark = self.table.get(grant.handle()).mark;
                self.table.settle(grant.handle(), HandleState::Locked, mark);
                self.lock.keep(grant);
            }
            Ok(Poll::Ready(_)) => {
                self.table
                    .settle(grant.handle(), HandleState::Ready, mark_if_ready);
                self.lock.hand_on(grant);
            }
            Err(_) => {
                self.table
                    .settle(grant.handle(), HandleState::Closed, mark_if_closed);
                self.lock.hand_on(grant);
            }
        }
    }

    // A write of the holder.
    fn write_granted(&mut self, grant: Grant, bytes: &[u8]) -> Result<Poll<usize>, HandleError>
        requires some { 0 < length bytes.now }
        requires state { (handle grant.handle (parts_view S.view self.old)).state ≡ Locking }
        ensures { Gives (write_by S.meaning S.checked S.wrote (S.meaning (S.view self.old.stream)) grant.handle bytes.now (parts_view S.view self.old)) result (parts_view S.view self.new) }
    {
        let mark = self.table.get(grant.handle()).mark;
        let result = write_or_wait(&mut self.stream, bytes);
        self.give_back(grant, result, false, mark);
        unless_closed(result, 0)
    }

    // The second stage of a flush of the holder.
    fn end_granted(&mut self, grant: Grant) -> Result<Poll<()>, HandleError>
        requires { (handle grant.handle (parts_view S.view self.old)).state ≡ Locking }
        ensures { Gives (second_by S.meaning S.checked S.flushed (S.meaning (S.view self.old.stream)) grant.handle (parts_view S.view self.old)) result (parts_view S.view self.new) }
    {
        let result = end_flush(&mut self.stream);
        self.give_back(grant, result, false, false);
        unless_closed(result, ())
    }

    // The second stage of a flush: the lock is taken anew.
    fn second_stage(&mut self, number: usize) -> Result<Poll<()>, HandleError>
        requires room { Room number (parts_view S.view self.old) }
        requires state { is_open (handle number (parts_view S.view self.old)).state ≡ true }
        ensures { Gives (second_stage S.meaning S.checked S.flushed number (parts_view S.view self.old)) result (parts_view S.view self.new) }
    {
        match self.acquire(number, Request::Flush) {
            Ok(Acquired::Granted(grant)) => self.end_granted(grant),
            Ok(Acquired::InLine) => Ok(Poll::Pending),
            Ok(Acquired::Answered) | Err(_) => unreachable(),
        }
    }

    // The first stage of a flush of the holder; once the stream has accepted the flush, the second follows.
    fn begin_granted(&mut self, grant: Grant) -> Result<Poll<()>, HandleError>
        requires there { grant.handle < length (parts_view S.view self.old).handles }
        requires holder { holds grant.handle (parts_view S.view self.old).queue ≡ true }
        requires state { (handle grant.handle (parts_view S.view self.old)).state ≡ Locking }
        ensures { Gives (first_by S.meaning S.checked S.flushed (S.meaning (S.view self.old.stream)) grant.handle (parts_view S.view self.old)) result (parts_view S.view self.new) }
    {
        let number = grant.handle();
        let mark = self.table.get(number).mark;
        let result = begin_flush(&mut self.stream);
        self.give_back(grant, result, true, mark);
        match result {
            Ok(Poll::Ready(())) => self.second_stage(number),
            Ok(Poll::Pending) | Err(_) => unless_closed(result, ()),
        }
    }

    pub(crate) fn poll_write(
        &mut self,
        number: usize,
        bytes: &[u8],
    ) -> Result<Poll<usize>, HandleError>
        requires { Room number (parts_view S.view self.old) }
        ensures { Gives (poll_write S.meaning S.checked S.wrote number bytes.now (parts_view S.view self.old)) result (parts_view S.view self.new) }
    {
        match self.acquire(number, requested(bytes))? {
            Acquired::Granted(grant) => self.write_granted(grant, bytes),
            Acquired::InLine => Ok(Poll::Pending),
            Acquired::Answered => Ok(Poll::Ready(0)),
        }
    }

    pub(crate) fn poll_flush(&mut self, number: usize) -> Result<Poll<()>, HandleError>
        requires { Room number (parts_view S.view self.old) }
        ensures { Gives (poll_flush S.meaning S.checked S.flushed number (parts_view S.view self.old)) result (parts_view S.view self.new) }
    {
        let mark = self.table.get(number).mark;
        match self.acquire(number, Request::Flush)? {
            Acquired::Granted(grant) if mark => self.end_granted(grant),
            Acquired::Granted(grant) => self.begin_granted(grant),
            Acquired::InLine => Ok(Poll::Pending),
            Acquired::Answered => Ok(Poll::Ready(())),
        }
    }

    // A drop leaves the line, or hands the lock on, and is final.
    pub(crate) fn drop_handle(&mut self, number: usize) -> Result<(), HandleError>
        ensures { Gives (drop_handle number (parts_view S.view self.old)) result (parts_view S.view self.new) }
    {
        if self.table.get(number).state == HandleState::Dropped {
            return Err(NoSuchHandle.into());
        }
        self.table.settle(number, HandleState::Dropped, false);
        self.lock.leave(number);
        Ok(())
    }
}

// The request that a write of these bytes makes.
fn requested(bytes: &[u8]) -> Request
    ensures { wants result ≡ nat_lt 0 (length bytes.now) }
{
    if bytes.is_empty() {
        Request::Nothing
    } else {
        Request::Write
    }
}

// A closed stream answers the poll; a fault is passed on whole.
fn unless_closed<T: Copy>(
    outcome: Result<Poll<T>, StreamError>,
    closed: T,
) -> Result<Poll<T>, HandleError>
    ensures { result ≡ answered_by outcome closed }
{
    match outcome {
        Err(StreamError::Closed) => Ok(Poll::Ready(closed)),
        _ => Ok(outcome?),
    }
}
