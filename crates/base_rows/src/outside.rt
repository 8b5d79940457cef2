//! Callers over any source, sink and store, and what the objects answer.
ghost use Rattle.std.specs.Prelude.{◌≡◌, ◌++◌, true, IsTrue, IfOk, OnErr, IsErrOf};
ghost use Rattle.hx_words.specs.Counts.{Rose};
ghost use Rattle.hx_io.specs.Streams.{Puts};
ghost use Rattle.hx_io.specs.Files.{SameButAt};

use hx_io::{
    FailSink, FailSource, FailStore, Failed, Found, MemSink, MemSource, MemStore, Sink, Source,
    Store, StoreFail,
};
use std::alloc::Global;
use std::process::Abort;
use std::test::Fail;

/// Copies a file under another name, and says whether it was there.
fn copy<S: Store>(alloc: Global, store: &mut S, from: &str, to: &str) -> Result<bool, StoreFail>
    ensures copied { IfOk result (λ found. IsTrue found → IsTrue (S.tells store.old) → S.file store.new to.now ≡ S.file store.old from.now) }
    ensures others { IsTrue (S.tells store.old) → SameButAt (S.file store.old) to.now (S.file store.new) }
    ensures failed { IsErrOf result StoreFail.Failed → Rose (S.faults store.old) (S.faults store.new) }
{
    let found = store.load(alloc, from, 4)?;
    match found {
        Found::Whole(bytes) => {
            store.save(alloc, to, &bytes)?;
            Ok(true)
        }
        _ => Ok(false),
    }
}

/// Puts two pieces in a row.
fn put_both<O: Sink>(out: &mut O, first: &[u8], second: &[u8]) -> Result<(), Failed>
    ensures puts { IsTrue (O.tells out.old) → Puts (O.bytes out.old) (first.now ++ second.now) result (O.bytes out.new) }
    ensures failed { OnErr result (Rose (O.faults out.old) (O.faults out.new)) }
{
    out.put(first)?;
    out.put(second)?;
    Ok(())
}

fn gives<S: Source>(rt: &impl Abort, source: &mut S, wanted: Result<Option<u8>, Failed>) {
    assert!(rt; source.next() == wanted);
}

#[test]
fn sources_give_their_bytes_in_order(rt: HostRuntime) -> Result<(), Fail> {
    let mut source = MemSource::new(Vec::from_slice(rt.alloc(), &[7, 8])?);
    gives(&rt, &mut source, Ok(Some(7)));
    assert!(rt; source.rest() == [8].as_slice());
    gives(&rt, &mut source, Ok(Some(8)));
    gives(&rt, &mut source, Ok(None));
    Ok(())
}

static ANSWERS: [Result<Option<u8>, Failed>; 6] = [
    Ok(Some(7)),
    Err(Failed),
    Ok(Some(8)),
    Err(Failed),
    Ok(None),
    Ok(None),
];

#[test]
fn sources_fail_at_chosen_calls(rt: HostRuntime) -> Result<(), Fail> {
    let bytes = MemSource::new(Vec::from_slice(rt.alloc(), &[7, 8])?);
    let mut source = FailSource::new(bytes, Vec::from_slice(rt.alloc(), &[3, 1])?);
    for answer in &ANSWERS {
        gives(&rt, &mut source, *answer);
    }
    assert!(rt; source.inner().rest().is_empty());
    Ok(())
}

/// Puts two pieces, and compares the answer.
fn puts<O: Sink>(
    rt: &impl Abort,
    sink: &mut O,
    first: &[u8],
    second: &[u8],
    wanted: Result<(), Failed>,
) {
    assert!(rt; put_both(sink, first, second) == wanted);
}

#[test]
fn sinks_keep_what_fits(rt: HostRuntime) -> Result<(), Fail> {
    let mut sink = MemSink::new(rt.alloc(), 5)?;
    puts(&rt, &mut sink, b"ab", b"cde", Ok(()));
    puts(&rt, &mut sink, b"", b"f", Err(Failed));
    assert!(rt; sink.bytes() == b"abcde".as_slice());
    Ok(())
}

#[test]
fn sinks_fail_at_chosen_calls(rt: HostRuntime) -> Result<(), Fail> {
    let held = MemSink::new(rt.alloc(), 3)?;
    let mut sink = FailSink::new(held, Vec::from_slice(rt.alloc(), &[1])?);
    puts(&rt, &mut sink, b"a", b"bc", Err(Failed));
    assert!(rt; sink.inner().bytes() == b"a".as_slice());
    puts(&rt, &mut sink, b"d", b"ef", Err(Failed));
    assert!(rt; sink.inner().bytes() == b"ade".as_slice());
    Ok(())
}

/// Loads from a store, and compares the answer.
fn loads<S: Store>(
    rt: &(impl Abort + AllocGlobal),
    store: &mut S,
    name: &str,
    wanted: Result<Found, StoreFail>,
) {
    assert!(rt; store.load(rt.alloc(), name, 3) == wanted, "{name}");
}

/// Saves into a store, and compares the answer.
fn saves<S: Store>(
    rt: &(impl Abort + AllocGlobal),
    store: &mut S,
    name: &str,
    bytes: &[u8],
    wanted: Result<(), StoreFail>,
) {
    assert!(rt; store.save(rt.alloc(), name, bytes) == wanted, "{name}");
}

/// Copies in a store, and compares the answer.
fn copies<S: Store>(
    rt: &(impl Abort + AllocGlobal),
    store: &mut S,
    wanted: Result<bool, StoreFail>,
) {
    assert!(rt; copy(rt.alloc(), store, "b", "c") == wanted);
}

/// Compares what a store holds under a name.
fn holds(rt: &impl Abort, store: &MemStore, name: &str, wanted: Option<&[u8]>) {
    assert!(rt; store.held(name) == wanted, "{name}");
}

#[test]
fn stores_hold_their_files(rt: HostRuntime) -> Result<(), Fail> {
    let mut store = MemStore::new(rt.alloc());
    loads(&rt, &mut store, "a", Ok(Found::Missing));
    saves(&rt, &mut store, "a", b"1234", Ok(()));
    saves(&rt, &mut store, "b", b"567", Ok(()));
    loads(&rt, &mut store, "a", Ok(Found::Longer));
    loads(
        &rt,
        &mut store,
        "b",
        Ok(Found::Whole(vec![in rt.alloc(); b'5', b'6', b'7']?)),
    );
    saves(&rt, &mut store, "a", b"", Ok(()));
    holds(&rt, &store, "a", Some(b""));
    holds(&rt, &store, "b", Some(b"567"));
    Ok(())
}

#[test]
fn loads_and_saves_share_one_numbering(rt: HostRuntime) -> Result<(), Fail> {
    let mut files = MemStore::new(rt.alloc());
    saves(&rt, &mut files, "b", b"12", Ok(()));
    let mut store = FailStore::new(files, vec![in rt.alloc(); 0, 2, 5]?);
    copies(&rt, &mut store, Err(StoreFail::Failed));
    copies(&rt, &mut store, Err(StoreFail::Failed));
    holds(&rt, store.inner(), "c", None);
    copies(&rt, &mut store, Ok(true));
    saves(&rt, &mut store, "b", b"3", Err(StoreFail::Failed));
    holds(&rt, store.inner(), "b", Some(b"12"));
    holds(&rt, store.inner(), "c", Some(b"12"));
    Ok(())
}
