//! What the objects of this crate give, take and answer, on small examples.
ghost use Rattle.std.specs.Prelude.{Some};

use super::*;
use std::alloc::Global;
use std::test::Fail;

fn bytes_of(alloc: Global, text: &str) -> Result<Vec<u8>, Fail> {
    Ok(text.as_bytes().to_vec(alloc)?)
}

// How many bytes one read gives, and a buffer of three bytes behind it.
fn next<S: Source>(source: &mut S) -> Result<(usize, [u8; 3]), Failed> {
    let mut buf = [b'-'; 3];
    let count = source.read(&mut buf)?;
    Ok((count, buf))
}

#[test]
fn a_source_in_memory_gives_pieces_and_fails_by_its_list(rt: HostRuntime) -> Result<(), Fail> {
    let alloc = rt.alloc();
    let mut source = MemSource::new(bytes_of(alloc, "abcde")?, 2, [2, 4].to_vec(alloc)?);
    for want in [
        Ok((2, *b"ab-")),
        Err(Failed),
        Ok((2, *b"cd-")),
        Err(Failed),
        Ok((1, *b"e--")),
        Ok((0, *b"---")),
    ] {
        assert_eq!(rt; next(&mut source), want);
    }
    Ok(())
}

#[test]
fn a_sink_in_memory_takes_whole_pieces_within_its_room(rt: HostRuntime) -> Result<(), Fail> {
    let alloc = rt.alloc();
    let mut sink = MemSink::new(alloc, 4, [2].to_vec(alloc)?)?;
    assert_eq!(rt; sink.write(b"ab"), Ok(2));
    assert_eq!(rt; sink.write(b"c"), Err(Failed));
    assert_eq!(rt; sink.write(b"cde"), Err(Failed));
    assert_eq!(rt; sink.write(b"cd"), Ok(2));
    assert_eq!(rt; sink.write(b"e"), Err(Failed));
    assert_eq!(rt; sink.bytes(), b"abcd".as_slice());
    Ok(())
}

#[test]
fn the_sure_objects_give_and_take_all(rt: HostRuntime) -> Result<(), Fail> {
    let mut source = SureSource::new(bytes_of(rt.alloc(), "abcd")?);
    for want in [(3, *b"abc"), (1, *b"d--"), (0, *b"---")] {
        assert_eq!(rt; next(&mut source), Ok(want));
    }
    assert_eq!(rt; SureSink::new().write(b"abc"), Ok(3));
    Ok(())
}

// A sink that takes one byte at a time.
#[derive(Drop)]
struct ByteSink {
    inner: MemSink,
}

impl Sink for ByteSink {
    ghost held = { λ sink. Some sink.inner.bytes };

    ghost faults = { λ sink. sink.inner.calls.faults };

    fn write(&mut self, piece: &[u8]) -> Result<usize, Failed> {
        self.inner.write(&piece[..1])
    }
}

#[test]
fn a_whole_piece_is_put_in_parts(rt: HostRuntime) -> Result<(), Fail> {
    let alloc = rt.alloc();
    let mut sink = ByteSink {
        inner: MemSink::new(alloc, 4, [5].to_vec(alloc)?)?,
    };
    assert_eq!(rt; put_all(&mut sink, b"abc"), Ok(()));
    assert_eq!(rt; put_all(&mut sink, b""), Ok(()));
    assert_eq!(rt; sink.inner.bytes(), b"abc".as_slice());
    assert_eq!(rt; put_all(&mut sink, b"de"), Err(Failed));
    assert_eq!(rt; sink.inner.bytes(), b"abcd".as_slice());
    let mut whole = MemSink::new(alloc, 2, Vec::new(alloc))?;
    assert_eq!(rt; put_all(&mut whole, b"ab"), Ok(()));
    assert_eq!(rt; put_all(&mut whole, b"c"), Err(Failed));
    assert_eq!(rt; whole.bytes(), b"ab".as_slice());
    Ok(())
}

#[test]
fn streams_of_std_are_read_and_written(rt: HostRuntime) -> Result<(), Fail> {
    let mut source = StdSource::new(b"abcd".as_slice());
    for want in [(3, *b"abc"), (1, *b"d--"), (0, *b"---")] {
        assert_eq!(rt; next(&mut source), Ok(want));
    }
    let mut place = [0u8; 3];
    let mut sink = StdSink::new(place.as_mut_slice());
    assert_eq!(rt; sink.write(b"ab"), Ok(2));
    assert_eq!(rt; sink.write(b"cd"), Ok(1));
    assert_eq!(rt; sink.write(b"d"), Err(Failed));
    Ok(())
}

#[test]
fn files_are_saved_and_loaded(rt: HostRuntime) -> Result<(), Fail> {
    let alloc = rt.alloc();
    let mut store = FileStore::new(&rt);
    assert_eq!(rt; store.load(alloc, "a", 9).err(), Some(LoadFault::Absent));
    assert_eq!(rt; store.save(alloc, "a", b"abc"), Ok(()));
    let loaded = store.load(alloc, "a", 3).ok();
    assert_eq!(rt; loaded.ok_or("loaded")?.as_slice(), b"abc".as_slice());
    assert_eq!(rt; store.load(alloc, "a", 2).err(), Some(LoadFault::TooBig));
    assert_eq!(rt; store.save(alloc, "gone/a", b"abc"), Err(SaveFault::Failed));
    Ok(())
}

#[test]
fn a_store_in_memory_has_the_first_file_of_a_name_and_fails_by_its_list(
    rt: HostRuntime,
) -> Result<(), Fail> {
    let alloc = rt.alloc();
    let mut files = Vec::new(alloc);
    for (name, text) in [("a", "one"), ("b", "two"), ("a", "other")] {
        files.push((String::from_str(alloc, name)?, bytes_of(alloc, text)?))?;
    }
    let mut store = MemStore::new(files, [3, 6].to_vec(alloc)?);
    let loaded = store.load(alloc, "a", 3).ok();
    assert_eq!(rt; loaded.ok_or("loaded")?.as_slice(), b"one".as_slice());
    assert_eq!(rt; store.load(alloc, "c", 9).err(), Some(LoadFault::Absent));
    assert_eq!(rt; store.load(alloc, "a", 3).err(), Some(LoadFault::Failed));
    assert_eq!(rt; store.load(alloc, "b", 2).err(), Some(LoadFault::TooBig));
    assert_eq!(rt; store.save(alloc, "a", b"four"), Ok(()));
    assert_eq!(rt; store.save(alloc, "c", b"x"), Err(SaveFault::Failed));
    assert_eq!(rt; store.file("c"), None);
    assert_eq!(rt; store.save(alloc, "c", b"x"), Ok(()));
    for (name, text) in [("a", "four"), ("b", "two"), ("c", "x")] {
        assert_eq!(rt; store.file(name), Some(text.as_bytes()));
    }
    Ok(())
}
