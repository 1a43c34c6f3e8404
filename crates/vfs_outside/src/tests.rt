use crate::*;
use std::test::Fail;

#[test]
fn a_source_gives_its_bytes_and_fails_when_told(rt: HostRuntime) -> Result<(), Fail> {
    let bytes = b"hello".to_vec(rt.alloc())?;
    let fail = [2].to_vec(rt.alloc())?;
    let mut source = MemorySource::new(bytes, fail);
    let mut into = [0u8; 3];
    assert_eq!(rt; source.read(&mut into), Ok(3));
    assert_eq!(rt; into, *b"hel");
    assert_eq!(rt; source.read(&mut into), Err(Failed));
    assert_eq!(rt; source.read(&mut into), Ok(2));
    assert_eq!(rt; into, *b"lol");
    assert_eq!(rt; source.read(&mut into), Ok(0));
    Ok(())
}

#[test]
fn a_sink_keeps_what_is_written_and_fails_when_told(rt: HostRuntime) -> Result<(), Fail> {
    let fail = [2].to_vec(rt.alloc())?;
    let mut sink = MemorySink::new(rt.alloc(), fail);
    assert_eq!(rt; sink.write(b"ab"), Ok(()));
    assert_eq!(rt; sink.write(b"cd"), Err(Failed));
    assert_eq!(rt; sink.write(b"ef"), Ok(()));
    assert_eq!(rt; sink.written(), b"abef".as_slice());
    Ok(())
}

#[test]
fn the_adapters_pass_bytes_on(rt: HostRuntime) -> Result<(), Fail> {
    let mut source = StdSource::new(b"xyz".as_slice());
    let mut into = [0u8; 2];
    assert_eq!(rt; source.read(&mut into), Ok(2));
    assert_eq!(rt; into, *b"xy");
    let mut sink = StdSink::new(Vec::new(rt.alloc()));
    assert_eq!(rt; sink.write(b"abc"), Ok(()));
    Ok(())
}

#[test]
fn clocks_never_fall(rt: HostRuntime) {
    let mut script = ScriptClock::new();
    assert_eq!(rt; script.now(), 0);
    script.advance(5000);
    assert_eq!(rt; script.now(), 5000);
    script.advance(u64::MAX);
    assert_eq!(rt; script.now(), 1 << 62);
    let mut system = StdClock::new(&rt);
    let first = system.now();
    system.advance(7);
    assert!(rt; system.now() >= first.saturating_add(7));
}
