//! Sinks that keep what is put.
use s2ix_text::{ArraySink, Sink, VecSink, put_all, put_parts};
use std::alloc::Global;
use std::process::Abort;

// Whether a sink in memory keeps all parts of a text.
fn is_kept_in_memory(alloc: Global, parts: &[&[u8]], kept: &[u8]) -> bool {
    let mut sink = VecSink::new(alloc);
    put_parts(&mut sink, parts).is_ok() && sink.faults() == 0 && sink.kept() == kept
}

// Whether a sink with room for four bytes keeps the first bytes of a text, and how often it failed then.
fn is_kept_in_four(text: &[u8], kept: &[u8], faults: u64) -> bool {
    let mut sink = ArraySink::<4>::new();
    put_all(&mut sink, text).is_err() == (faults > 0)
        && sink.faults() == faults
        && sink.kept() == kept
}

#[test]
fn sinks_keep_what_is_put(rt: HostRuntime) {
    assert!(rt; is_kept_in_memory(rt.alloc(), &[b"hello", b"", b" world\n"], b"hello world\n"));
    assert!(rt; is_kept_in_four(b"four", b"four", 0));
    assert!(rt; is_kept_in_four(b"fives", b"five", 1));
}
