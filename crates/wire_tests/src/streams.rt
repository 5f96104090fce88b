//! Sources and sinks of bytes.

use super::cases::assert_case;
use octet_io::{ArraySink, Failed, Reader, Sink, SliceSource, Source, Writer};
use std::process::Abort;

/// Reads with a buffer of two bytes.
const READ: &[&[u8]] = &[b"ab", b"c", b""];

fn assert_reads<S: Source>(rt: &impl Abort, source: &mut S, expected: &[&[u8]]) {
    for octets in expected {
        assert_case(rt, gives(source, octets), octets);
    }
}

fn gives<S: Source>(source: &mut S, octets: &[u8]) -> bool {
    let mut buf = [0; 2];
    source.read(&mut buf) == Ok(octets.len()) && buf.as_slice().starts_with(octets)
}

const WRITTEN: &[(&[u8], Result<usize, Failed>)] = &[
    (b"abc", Ok(3)),
    (b"def", Ok(1)),
    (b"ef", Err(Failed)),
    (b"", Ok(0)),
];

fn assert_writes<S: Sink>(rt: &impl Abort, sink: &mut S, cases: &[(&[u8], Result<usize, Failed>)]) {
    for (octets, answer) in cases {
        assert_case(rt, sink.write(octets) == *answer, octets);
    }
}

#[test]
fn std_reader(rt: HostRuntime) {
    assert_reads(&rt, &mut Reader::new(b"abc".as_slice()), READ);
}

#[test]
fn std_writer(rt: HostRuntime) {
    let mut sink = Writer::new(Vec::new(rt.alloc()));
    assert_writes(&rt, &mut sink, &[(b"abc", Ok(3))]);
}

#[test]
fn slice(rt: HostRuntime) {
    assert_reads(&rt, &mut SliceSource::new(b"abc"), READ);
}

#[test]
fn buffer(rt: HostRuntime) {
    let mut sink = ArraySink::<4>::new();
    assert_writes(&rt, &mut sink, WRITTEN);
    assert!(rt; sink.octets() == b"abcd".as_slice());
}
