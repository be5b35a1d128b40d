// Handles that share a worker stream, and the same handles over a memory pipe.
use handles::{DirectError, HandleError, HandleState, LockHeld, NoSuchHandle, Poll};
use memory_pipe::MemoryOutputPipe;
use memory_writers::memory::MemoryWriter;
use shared::AsyncStdoutStream;
use std::test::Fail;
use stream::Limits;

#[test]
fn direct_calls_wait_for_the_lock(rt: HostRuntime) -> Result<(), Fail> {
    let memory = vec![in rt.alloc(); 0u8; 8]?;
    let mut shared = AsyncStdoutStream::new(Limits::new(2, 2)?, MemoryWriter::new(memory));
    assert_eq!(rt; shared.poll_write(0, b"abc"), Ok(Poll::Ready(2)));
    assert_eq!(rt; shared.poll_write(1, b"d"), Ok(Poll::Pending));
    assert_eq!(rt; shared.check_write(), Err(DirectError::Refused(LockHeld)));
    assert_eq!(rt; shared.handle_state(1), Ok(HandleState::Locked));
    let _ = shared.turn();
    assert_eq!(rt; shared.poll_write(1, b"d"), Ok(Poll::Ready(1)));
    assert_eq!(rt; shared.check_write(), Ok(1));
    Ok(())
}

#[test]
fn no_such_handle(rt: HostRuntime) -> Result<(), Fail> {
    let memory = vec![in rt.alloc(); 0u8; 8]?;
    let mut shared = AsyncStdoutStream::new(Limits::new(2, 2)?, MemoryWriter::new(memory));
    assert_eq!(rt;
        shared.poll_flush(2),
        Err(HandleError::Refused(NoSuchHandle))
    );
    assert_eq!(rt;
        shared.handle_state(2),
        Err(HandleError::Refused(NoSuchHandle))
    );
    assert_eq!(rt; shared.drop_handle(1), Ok(()));
    assert_eq!(rt;
        shared.poll_write(1, b""),
        Err(HandleError::Refused(NoSuchHandle))
    );
    assert_eq!(rt; shared.handle_state(1), Ok(HandleState::Dropped));
    Ok(())
}

#[test]
fn handles_share_a_pipe(rt: HostRuntime) -> Result<(), Fail> {
    let buffer = vec![in rt.alloc(); 0u8; 3]?;
    let mut shared = AsyncStdoutStream::over(Limits::new(2, 2)?, MemoryOutputPipe::new(buffer));
    assert_eq!(rt; shared.poll_write(0, b"ab"), Ok(Poll::Ready(2)));
    assert_eq!(rt; shared.poll_flush(0), Ok(Poll::Ready(())));
    assert_eq!(rt; shared.poll_write(1, b"cde"), Ok(Poll::Ready(1)));
    assert_eq!(rt; shared.poll_write(1, b"de"), Ok(Poll::Ready(0)));
    assert_eq!(rt; shared.handle_state(1), Ok(HandleState::Closed));
    Ok(())
}
