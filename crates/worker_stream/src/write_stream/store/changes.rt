// Queueing a write, offering its rest, and letting it go. Relies on `job`.
ghost use Rattle.std.specs.Prelude.{◌≡◌, ◌+◌, ◌<◌, ◌≤◌, length, nat_le};
ghost use Rattle.worker_stream.specs.StoreView.{empty, oldest, rest, used, queued, advanced, popped};
ghost use Rattle.worker_stream.specs.Work.{work_left, Next};

use super::Store;
use crate::write_stream::job::Job;
use arrayvec::ArrayVec;

impl Store {
    pub fn new() -> Store
        ensures { result ≡ empty }
    {
        Store {
            bytes: ArrayVec::new(),
            lengths: ArrayVec::new(),
            progress: 0,
        }
    }

    // How many writes are unfinished.
    #[tactic(auto, using(crate::proofs::Cuts::cut_laws))]
    pub fn len(&self) -> usize
        ensures value { result ≡ length self.now.unfinished }
        ensures few { result ≤ 256 }
    {
        self.lengths.len()
    }

    // Whether there is no place for another write.
    #[tactic(auto, using(crate::proofs::Cuts::cut_laws))]
    pub(crate) fn is_full(&self) -> bool
        ensures { result ≡ nat_le 256 (length self.now.unfinished) }
    {
        self.lengths.is_full()
    }

    // How much of the oldest write the writer has not taken yet.
    pub(crate) fn rest_len(&self) -> usize
        requires { 0 < length self.now.unfinished }
        ensures { result ≡ length (rest self.now) }
    {
        usize::from(self.lengths[0]) - self.progress
    }

    // One write more behind the others.
    #[tactic(auto, using(crate::proofs::Cuts::cut_laws))]
    pub(crate) fn push(&mut self, bytes: &[u8])
        requires room { used self.old + length bytes.now ≤ 4096 }
        requires few { length self.old.unfinished < 256 }
        ensures { self.new ≡ queued bytes.now self.old }
    {
        self.bytes.try_extend_from_slice(bytes).unwrap();
        self.lengths.push(u16::try_from(bytes.len()).unwrap());
    }

    // The next job; a write's part lies in this store.
    pub fn next_job(&self, flush_pending: bool) -> Option<Job<'_>>
        ensures { Next (work_left self.now.unfinished self.now.progress flush_pending) result }
    {
        match self.lengths.first() {
            Some(&length) => Some(Job::Write(&self.bytes[self.progress..usize::from(length)])),
            None => flush_pending.then_some(Job::Flush),
        }
    }

    // The writer took n bytes more of the oldest write, and some are left.
    pub(crate) fn advance(&mut self, n: usize)
        requires { n < length (rest self.old) }
        ensures { self.new ≡ advanced n self.old }
    {
        self.progress += n;
    }

    // The oldest write leaves the store, whose other writes move to its start.
    #[tactic(auto, using(crate::proofs::Cuts::first_cut, crate::proofs::Cuts::without_first))]
    pub(crate) fn pop(&mut self) -> usize
        requires { 0 < length self.old.unfinished }
        ensures value { result ≡ length (oldest self.old.unfinished) }
        ensures left { self.new ≡ popped self.old }
    {
        let n = usize::from(self.lengths[0]);
        let left = self.bytes.len() - n;
        if self.lengths.len() > 1 {
            // `remove(0)` and `drain(..n)` leave the same, and take longer (docs/SPEED.md).
            self.lengths.copy_within(1.., 0);
            self.bytes.copy_within(n.., 0);
        }
        self.lengths.pop();
        self.bytes.truncate(left);
        self.progress = 0;
        n
    }
}
