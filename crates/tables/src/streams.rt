// Each refusal by its number, at the limit and one past it, and what a refusal leaves.
use memory_writers::memory::MemoryWriter;
use planned_writer::PlanEntry;
use planned_writer::planned::PlannedWriter;
use std::alloc::{AllocError, Global};
use std::test::Fail;
use stream::{Limits, OutputStream, Pollable, StreamError};
use worker_stream::write_stream::{AsyncWriteStream, Turn};
use writer::{Fault, Writer};

// The number of the refusal, if there is one.
fn refused_limits(budget: usize, handles: usize) -> Option<u8> {
    Limits::new(budget, handles).err().map(|e| e.code())
}

#[test]
fn limits(rt: HostRuntime) {
    let table = [
        (0, 1, None),
        (4096, 16, None),
        (4097, 16, Some(1)),
        (4097, 0, Some(1)),
        (4096, 0, Some(2)),
        (4096, 17, Some(2)),
    ];
    for (budget, handles, code) in table {
        assert_eq!(rt; refused_limits(budget, handles), code);
    }
}

fn planned(
    heap: Global,
    entry: Option<PlanEntry>,
) -> Result<PlannedWriter<MemoryWriter>, AllocError> {
    let mut writer = PlannedWriter::new(MemoryWriter::new(vec![in heap; 0u8; 8]?));
    if let Some(entry) = entry {
        let _ = writer.plan(entry);
    }
    Ok(writer)
}

#[test]
fn plan_of_33(rt: HostRuntime) -> Result<(), Fail> {
    let mut writer = planned(rt.alloc(), None)?;
    for _ in 0..32 {
        assert!(rt; writer.plan(PlanEntry::NotYet).is_ok());
    }
    assert_eq!(rt;
        writer.plan(PlanEntry::NotYet).err().map(|full| full.code()),
        Some(3)
    );
    Ok(())
}

// The number of the refusal, if there is one.
fn code(outcome: Result<(), StreamError>) -> Option<u8> {
    outcome.err().map(|e| e.code())
}

#[test]
fn writes(rt: HostRuntime) -> Result<(), Fail> {
    let mut stream = AsyncWriteStream::new(Limits::new(4, 1)?, planned(rt.alloc(), None)?);
    assert_eq!(rt; code(stream.write(b"abcde")), Some(12));
    assert_eq!(rt; code(stream.write(b"abcd")), None);
    assert_eq!(rt; code(stream.write(b"a")), Some(12));
    assert_eq!(rt; code(stream.flush()), None);
    assert_eq!(rt; code(stream.write(b"")), Some(11));
    assert_eq!(rt; code(stream.write(b"abcde")), Some(11));
    assert!(rt; !stream.ready());
    assert_eq!(rt; stream.free_budget(), 0);
    assert_eq!(rt; stream.unfinished(), 1);
    Ok(())
}

#[test]
fn fault_is_told_once(rt: HostRuntime) -> Result<(), Fail> {
    let mut stream = AsyncWriteStream::new(
        Limits::new(4, 1)?,
        planned(rt.alloc(), Some(PlanEntry::Fail(5)))?,
    );
    assert_eq!(rt; code(stream.write(b"ab")), None);
    assert_eq!(rt; stream.turn(), Turn::Failed);
    assert!(rt; stream.ready());
    assert_eq!(rt;
        stream.flush(),
        Err(StreamError::LastOperationFailed(Fault::Device(5)))
    );
    assert_eq!(rt; code(stream.flush()), Some(21));
    assert_eq!(rt; code(stream.write(b"")), Some(21));
    assert_eq!(rt; stream.turn(), Turn::Stopped);
    Ok(())
}
