// Reading a handle, and changing one that is lent. Relies on `handles` for what a handle is.
ghost use Rattle.std.specs.Prelude.{◌≡◌, ◌<◌, false, length, replicate, slice_index_or, slice_set};
ghost use Rattle.promises.specs.SharedView.{dropped};
ghost use Rattle.handles.specs.declared.handle.HandleState.TheVariants.{Ready};
ghost use Rattle.shared.specs.Asking.{met, wanting};
ghost use Rattle.shared.specs.TableOf.{handles_of};

use super::Table;
use arrayvec::ArrayVec;
use handles::{HandleState, NoSuchHandle, StdoutHandle};
use stream::Limits;
use stream::limits::MAX_HANDLES;

// The call of a poll, as far as the handle's state needs it.
#[derive(Clone, Copy)]
pub enum Request {
    // A write of no bytes.
    Nothing,
    Write,
    Flush,
}

// What a poll meets at its handle.
#[derive(Clone, Copy)]
pub enum Met {
    // Closed, or nothing to do: the poll is answered without the stream.
    Answered,
    // The handle was Ready, and joins the line.
    Joins,
    InLine,
}

// The handle's state and the call decide together; a handle that wants the lock is Locking from here on.
pub(crate) fn ask_handle(handle: &mut StdoutHandle, request: Request) -> Result<Met, NoSuchHandle>
    ensures told { result ≡ met handle.old.state request }
    ensures left { handle.new ≡ wanting result handle.old }
{
    match (handle.state, request) {
        (HandleState::Dropped, _) => Err(NoSuchHandle),
        (HandleState::Closed, _) | (_, Request::Nothing) => Ok(Met::Answered),
        (HandleState::Ready, _) => {
            handle.state = HandleState::Locking;
            Ok(Met::Joins)
        }
        (HandleState::Locking | HandleState::Locked, _) => {
            handle.state = HandleState::Locking;
            Ok(Met::InLine)
        }
    }
}

impl Table {
    // All handles Ready, with a clear mark.
    pub fn new(limits: Limits) -> Table
        ensures { handles_of result ≡ replicate limits.handles (record { state = Ready; mark = false }) }
    {
        let mut handles = ArrayVec::from([StdoutHandle::default(); MAX_HANDLES]);
        handles.truncate(limits.handles());
        Table { handles }
    }

    // How many handles there are, dropped ones too.
    pub fn len(&self) -> usize
        ensures { result ≡ length (handles_of self.now) }
    {
        self.handles.len()
    }

    // A handle by its number. The rules read one that there is not as dropped; an `Option` would have each caller say so.
    pub fn get(&self, number: usize) -> StdoutHandle
        ensures { result ≡ slice_index_or (handles_of self.now) number dropped }
    {
        self.handles.get(number).copied().unwrap_or(StdoutHandle {
            state: HandleState::Dropped,
            mark: false,
        })
    }

    // Asks one handle; the others stay.
    pub(crate) fn ask(&mut self, number: usize, request: Request) -> Result<Met, NoSuchHandle>
        ensures told { result ≡ met (slice_index_or (handles_of self.old) number dropped).state request }
        ensures left { handles_of self.new ≡ slice_set (handles_of self.old) number (wanting result (slice_index_or (handles_of self.old) number dropped)) }
    {
        match self.handles.get_mut(number) {
            Some(handle) => ask_handle(handle, request),
            None => Err(NoSuchHandle),
        }
    }

    // Settles one handle; the others stay.
    pub(crate) fn settle(&mut self, number: usize, state: HandleState, mark: bool)
        ensures { handles_of self.new ≡ slice_set (handles_of self.old) number (record { state = state; mark = mark }) }
    {
        if let Some(handle) = self.handles.get_mut(number) {
            *handle = StdoutHandle { state, mark };
        }
    }
}
