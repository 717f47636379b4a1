use crate::assertions::same;
use crate::fakes::{Feed, Log};
use base_streams::{Counted, Failed, Sink, Source};

#[test]
fn a_source_gives_what_its_reader_gives(rt: HostRuntime) {
    let mut reader = b"abcde".as_slice();
    let mut source = Counted::new(&mut reader);
    let mut buf = [0; 3];
    same(&rt, source.take(&mut buf), Ok(3), "the first three");
    same(&rt, buf.as_slice(), b"abc".as_slice(), "the first three");
    same(&rt, source.take(&mut buf), Ok(2), "the last two");
    same(&rt, source.take(&mut buf), Ok(0), "the end");
    same(&rt, reader, b"".as_slice(), "what is left");
}

#[test]
fn a_sink_gives_its_writer_what_it_is_given(rt: HostRuntime) {
    let mut writer = Vec::new(rt.alloc());
    let mut sink = Counted::new(&mut writer);
    same(&rt, sink.put(b"ab"), Ok(2), "two bytes");
    same(&rt, sink.put(b"c"), Ok(1), "one more");
    same(&rt, sink.successes(), 2, "its successes");
    same(&rt, writer.as_slice(), b"abc".as_slice(), "all of them");
}

#[test]
fn a_failed_read_and_a_write_of_nothing_fail(rt: HostRuntime) {
    let mut broken = Feed::of(b"abcde");
    broken.fails_at = 1;
    let read = Counted::new(&mut broken).take(&mut [0; 3]);
    same(&rt, read, Err(Failed), "a failed read");
    let mut full = Log::new(rt.alloc());
    full.most = 0;
    let written = Counted::new(&mut full).put(b"ab");
    same(&rt, written, Err(Failed), "a write of nothing");
}
