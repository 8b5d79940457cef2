//! Readers that fail in the middle, and the count of a file store's faults: what no public call shows.
use super::{FileStore, StdSource, read_whole};
use crate::outside::{Failed, Found, Source, Store, StoreFail};
use std::io::Read;
use std::process::Abort;
use std::rt::Files;
use std::test::Fail;
use std::{fs, io};

const FOLDER: &str = "hx_io_test";

const PATH: &str = "hx_io_test/bytes";

/// Gives the steps in turn: a byte, or an error where there is none. Then it is at its end.
#[derive(Drop)]
struct Steps<'a> {
    steps: &'a [Option<u8>],
}

impl Read for Steps<'_> {
    fn read(&mut self, buf: &mut [u8]) -> io::Result<usize> {
        let Some((step, rest)) = self.steps.split_first() else {
            return Ok(0);
        };
        self.steps = rest;
        match (step, buf) {
            (Some(byte), [first, ..]) => {
                *first = *byte;
                Ok(1)
            }
            _ => Err(io::ErrorKind::Other.into()),
        }
    }
}

#[test]
fn a_reader_that_fails_goes_on(rt: HostRuntime) -> Result<(), Fail> {
    let steps = [Some(1), None, Some(2)];
    let mut source = StdSource::new(Steps { steps: &steps });
    for answer in [Ok(Some(1)), Err(Failed), Ok(Some(2)), Ok(None)] {
        assert_eq!(rt; source.next(), answer);
    }
    let alloc = rt.alloc();
    let whole = Found::Whole(vec![in alloc; 1, 2]?);
    for (steps, most, answer) in [
        ([Some(1), Some(2)].as_slice(), 2, Ok(whole)),
        (&[Some(1), Some(2), Some(3)], 2, Ok(Found::Longer)),
        (&[Some(1), None, Some(2)], 2, Err(StoreFail::Failed)),
        (&[], 0, Ok(Found::Whole(vec![in alloc]?))),
        (&[Some(1)], 0, Ok(Found::Longer)),
    ] {
        assert_eq!(rt; read_whole(alloc, &mut Steps { steps }, most), answer);
    }
    Ok(())
}

/// Loads from the files, and compares the answer.
fn loads<R: Files>(
    rt: &(impl Abort + AllocGlobal),
    store: &mut FileStore<R>,
    name: &str,
    wanted: Result<Found, StoreFail>,
) {
    assert_eq!(rt; store.load(rt.alloc(), name, 10_000), wanted, "{name}");
}

/// Saves into the files, and compares the answer.
fn saves<R: Files>(
    rt: &(impl Abort + AllocGlobal),
    store: &mut FileStore<R>,
    bytes: &[u8],
    wanted: Result<(), StoreFail>,
) {
    assert_eq!(rt; store.save(rt.alloc(), PATH, bytes), wanted);
}

#[test]
fn files_hold_what_was_saved(rt: HostRuntime) -> Result<(), Fail> {
    let _ = fs::remove_dir_all(&rt, FOLDER);
    let mut store = FileStore::new(&rt);
    saves(&rt, &mut store, b"abc", Err(StoreFail::Failed));
    loads(&rt, &mut store, PATH, Ok(Found::Missing));
    fs::create_dir(&rt, FOLDER)?;
    loads(&rt, &mut store, FOLDER, Err(StoreFail::Failed));
    let large = vec![in rt.alloc(); 7; 10_000]?;
    saves(&rt, &mut store, &large, Ok(()));
    loads(&rt, &mut store, PATH, Ok(Found::Whole(large)));
    saves(&rt, &mut store, b"a", Ok(()));
    loads(
        &rt,
        &mut store,
        PATH,
        Ok(Found::Whole(vec![in rt.alloc(); b'a']?)),
    );
    assert_eq!(rt; store.faults, 2);
    fs::remove_dir_all(&rt, FOLDER)?;
    Ok(())
}
