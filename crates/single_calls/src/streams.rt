//! Sources, sinks and notifiers in memory.
use pool_base::RiderId;
use pool_io::{PlainSink, PlainSource, Sink, read_all};
use request_book::{MemoryNotifier, Notice, Notifier};
use std::alloc::{AllocError, Global};
use std::test::Fail;

// The bytes of a literal.
fn owned(alloc: Global, text: &[u8]) -> Result<Vec<u8>, AllocError> {
    Vec::from_slice(alloc, text)
}

// Whether a source of these bytes is read.
fn is_read(alloc: Global, text: &[u8]) -> bool {
    match owned(alloc, text) {
        Ok(bytes) => {
            let mut source = PlainSource::new(bytes);
            match read_all(alloc, &mut source, 16) {
                Ok(read) => read.as_slice() == text,
                Err(_) => false,
            }
        }
        Err(_) => false,
    }
}

// Whether what is written to a plain sink stands in it.
fn is_written(alloc: Global) -> bool {
    let mut sink = PlainSink::new(alloc);
    matches!(sink.write(b"more bytes"), Ok(10)) && sink.written() == b"more bytes".as_slice()
}

#[test]
fn streams_in_memory(rt: HostRuntime) {
    assert!(rt; is_read(rt.alloc(), b"bytes"));
    assert!(rt; is_written(rt.alloc()));
}

// A notifier with room for two notices that fails its second call.
fn notifier(alloc: Global) -> Result<MemoryNotifier, AllocError> {
    let mut notifier = MemoryNotifier::new(alloc, Vec::from_slice(alloc, &[1])?);
    match notifier.reserve(2) {
        Ok(()) => Ok(notifier),
        Err(_) => Err(AllocError),
    }
}

#[test]
fn a_call_of_a_notifier_fails(rt: HostRuntime) -> Result<(), Fail> {
    let notice = Notice::Unserved {
        batch: 1,
        rider: RiderId::default(),
    };
    let mut notifier = notifier(rt.alloc())?;
    assert!(rt; notifier.tell(&notice).is_ok());
    assert!(rt; notifier.tell(&notice).is_err());
    assert!(rt; matches!(notifier.told(), [Notice::Unserved { batch: 1, .. }]));
    Ok(())
}
