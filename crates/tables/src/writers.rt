// The three writers on small examples.
use memory_writers::{ImageWriter, MemoryWriter};
use planned_writer::{PlanEntry, PlanFull, PlannedWriter};
use std::test::Fail;
use writer::{Fault, FlushAnswer, WriteAnswer, Writer};

#[test]
fn memory_of_one_byte(rt: HostRuntime) -> Result<(), Fail> {
    let mut writer = MemoryWriter::new([0].to_vec(rt.alloc())?);
    assert_eq!(rt; writer.write(b"ab"), WriteAnswer::Took(1));
    assert_eq!(rt; writer.write(b"b"), WriteAnswer::Took(0));
    assert_eq!(rt; writer.covered(), 0);
    assert_eq!(rt; writer.flush(), FlushAnswer::Done);
    assert_eq!(rt; writer.covered(), 1);
    assert_eq!(rt; writer.contents(), b"a".as_slice());
    Ok(())
}

#[test]
fn image_that_fills_up(rt: HostRuntime) -> Result<(), Fail> {
    let mut writer = ImageWriter::new(b"wxyz".to_vec(rt.alloc())?, 2);
    assert_eq!(rt; writer.write(b"a"), WriteAnswer::Took(1));
    assert_eq!(rt; writer.write(b"bc"), WriteAnswer::Took(1));
    assert_eq!(rt; writer.write(b"c"), WriteAnswer::Failed(Fault::Device(28)));
    assert_eq!(rt; writer.write(b""), WriteAnswer::Took(0));
    assert_eq!(rt; writer.into_image().as_slice(), b"wxab".as_slice());
    Ok(())
}

#[test]
fn image_from_past_its_end(rt: HostRuntime) -> Result<(), Fail> {
    let mut writer = ImageWriter::new(b"wx".to_vec(rt.alloc())?, 9);
    assert_eq!(rt; writer.write(b"a"), WriteAnswer::Failed(Fault::Device(28)));
    assert_eq!(rt; writer.flush(), FlushAnswer::Done);
    assert_eq!(rt; writer.into_image().as_slice(), b"wx".as_slice());
    Ok(())
}

#[test]
fn entries_in_order(rt: HostRuntime) -> Result<(), Fail> {
    let mut writer = PlannedWriter::new(MemoryWriter::new([0; 8].to_vec(rt.alloc())?));
    assert_eq!(rt; writer.plan(PlanEntry::AtMost(1)), Ok(()));
    assert_eq!(rt; writer.plan(PlanEntry::AtMost(1)), Ok(()));
    assert_eq!(rt; writer.plan(PlanEntry::NotYet), Ok(()));
    assert_eq!(rt; writer.plan(PlanEntry::Fail(7)), Ok(()));
    assert_eq!(rt; writer.write(b"abc"), WriteAnswer::Took(1));
    assert_eq!(rt; writer.flush(), FlushAnswer::Done);
    assert_eq!(rt; writer.write(b"bc"), WriteAnswer::NotYet);
    assert_eq!(rt; writer.flush(), FlushAnswer::Failed(Fault::Device(7)));
    assert_eq!(rt; writer.write(b"bc"), WriteAnswer::Took(2));
    assert_eq!(rt; writer.inner().contents(), b"abc".as_slice());
    Ok(())
}

#[test]
fn entry_past_the_last(rt: HostRuntime) -> Result<(), Fail> {
    let mut writer = PlannedWriter::new(MemoryWriter::new([0].to_vec(rt.alloc())?));
    for _ in 0..32 {
        assert_eq!(rt; writer.plan(PlanEntry::NotYet), Ok(()));
    }
    assert_eq!(rt; writer.write(b"a"), WriteAnswer::NotYet);
    assert_eq!(rt; writer.plan(PlanEntry::NotYet), Err(PlanFull));
    assert_eq!(rt; PlanFull.code(), 3);
    Ok(())
}
