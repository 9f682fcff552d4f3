//! The program `protoscan` where words, files or writers fail.

use protoscan_run::{broken, run, without_words};
use std::alloc::Global;
use std::io;
use std::test::Fail;

// What is said if the words or the file can't be had.
fn said(alloc: Global, kind: io::ErrorKind) -> Result<String, Fail> {
    let error = io::Error::from(kind);
    let mut err = Vec::new(alloc);
    let status = (without_words(&mut err, &error), broken(&mut err, &error));
    let lines = String::from_utf8_lossy(alloc, &err)?;
    Ok(format!(in alloc; "{lines}{status:?}")?)
}

#[test]
fn words_that_cant_be_had(rt: HostRuntime) -> Result<(), Fail> {
    for (kind, expected) in [
        (
            io::ErrorKind::InvalidData,
            "protoscan: an argument is not UTF-8\n(2, 2)",
        ),
        (
            io::ErrorKind::OutOfMemory,
            "protoscan: out of memory\nprotoscan: out of memory\n(2, 2)",
        ),
        (io::ErrorKind::NotFound, "(2, 2)"),
    ] {
        let found = said(rt.alloc(), kind)?;
        assert_eq!(rt; found.as_str(), expected);
    }
    Ok(())
}

// A writer with room for some bytes. It refuses the write that doesn't fit.
#[test]
fn nothing_is_said_behind_a_failed_write(rt: HostRuntime) -> Result<(), Fail> {
    let words = vec![in rt.alloc(); String::from_str(rt.alloc(), "a")?]?;
    let mut out = Vec::new(rt.alloc());
    let mut none = [0u8; 0];
    let mut first = none.as_mut_slice();
    let status = run(rt.alloc(), &words, None, &mut out, &mut first);
    assert_eq!(rt; status, 2);
    let mut room = [0u8; 23];
    let mut second = room.as_mut_slice();
    let status = run(rt.alloc(), &words, None, &mut out, &mut second);
    assert_eq!(rt; status, 2);
    assert_eq!(rt; room.as_slice(), b"protoscan: cannot read ".as_slice());
    assert!(rt; out.is_empty());
    Ok(())
}

#[test]
fn nothing_is_written_behind_a_failed_write(rt: HostRuntime) -> Result<(), Fail> {
    let words = vec![in rt.alloc(); String::from_str(rt.alloc(), "a")?]?;
    let mut source = Vec::new(rt.alloc());
    for _ in 0..700 {
        source.extend_from_slice(b"message A{}")?;
    }
    let mut err = Vec::new(rt.alloc());
    // The first lines don't fit, or they fit and those behind them don't.
    for size in [3usize, 20000] {
        let mut room = vec![in rt.alloc(); 0u8; size]?;
        let mut out = room.as_mut_slice();
        let status = run(
            rt.alloc(),
            &words,
            Some(source.as_slice()),
            &mut out,
            &mut err,
        );
        assert_eq!(rt; status, 2);
        assert!(rt; err.is_empty());
        assert_eq!(rt; room.first(), Some(&b'.'));
    }
    Ok(())
}
