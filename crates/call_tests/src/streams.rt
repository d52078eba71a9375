// The forms in memory, call by call.
use outside::{MemSink, MemSource, ReadGot, Sink, Source, Wrote};
use std::test::Fail;

const READS: [(ReadGot, &[u8]); 5] = [
    (ReadGot::Got(2), b"ab"),
    (ReadGot::Failed, b""),
    (ReadGot::Got(2), b"cd"),
    (ReadGot::Got(1), b"e"),
    (ReadGot::End, b""),
];

#[test]
fn a_source_gives_pieces_and_fails_in_mid_stream(rt: HostRuntime) -> Result<(), Fail> {
    let mut source = MemSource::new(rt.alloc(), b"abcde", 2, &[2])?;
    let mut buf = [0u8; 3];
    for (got, bytes) in READS {
        assert_eq!(rt; source.read(&mut buf), got);
        assert!(rt; buf.starts_with(bytes));
    }
    assert_eq!(rt; source.left(), b"".as_slice());
    assert_eq!(rt; source.faults(), 1);
    Ok(())
}

const WRITES: [(&[u8], Wrote, &[u8]); 3] = [
    (b"abc", Wrote::Took(3), b"abc"),
    (b"de", Wrote::Failed, b"abc"),
    (b"fg", Wrote::Took(2), b"abcfg"),
];

#[test]
fn a_sink_keeps_what_it_takes(rt: HostRuntime) -> Result<(), Fail> {
    let mut sink = MemSink::new(rt.alloc(), &[2])?;
    for (piece, wrote, taken) in WRITES {
        assert_eq!(rt; sink.write(piece), wrote);
        assert_eq!(rt; sink.taken(), taken);
    }
    assert_eq!(rt; sink.faults(), 1);
    Ok(())
}
