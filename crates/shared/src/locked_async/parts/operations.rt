// What a poll does with the stream between taking the grant and giving it back. Relies on the laws of an output stream: no trap is met.
ghost use Rattle.std.specs.Prelude.{◌<◌, length};
ghost use Rattle.shared.specs.Operations.{WriteOperation, StageOperation};

use handles::Poll;
use stream::{OutputStream, StreamError, write_permitted};

// Writes as many of the bytes as are permitted; where that is none, the write has to wait.
pub(crate) fn write_or_wait<S: OutputStream>(
    stream: &mut S,
    bytes: &[u8],
) -> Result<Poll<usize>, StreamError>
    requires { 0 < length bytes.now }
    ensures { WriteOperation S.checked S.wrote (S.meaning (S.view stream.old)) bytes.now (S.view stream.old) result (S.view stream.new) }
{
    match write_permitted(stream, bytes) {
        Ok(0) => Ok(Poll::Pending),
        Ok(n) => Ok(Poll::Ready(n)),
        Err(e) => Err(e),
    }
}

// The first stage of a flush. It differs from `end_flush` in the call alone; a closure for the call would need as
// many lines and a contract more.
pub(crate) fn begin_flush<S: OutputStream>(stream: &mut S) -> Result<Poll<()>, StreamError>
    ensures { StageOperation S.flushed (S.meaning (S.view stream.old)) (S.view stream.old) result (S.view stream.new) }
{
    if !stream.ready() {
        return Ok(Poll::Pending);
    }
    stream.flush()?;
    Ok(Poll::Ready(()))
}

// The second stage of a flush.
pub(crate) fn end_flush<S: OutputStream>(stream: &mut S) -> Result<Poll<()>, StreamError>
    ensures { StageOperation S.checked (S.meaning (S.view stream.old)) (S.view stream.old) result (S.view stream.new) }
{
    if !stream.ready() {
        return Ok(Poll::Pending);
    }
    stream.check_write()?;
    Ok(Poll::Ready(()))
}
