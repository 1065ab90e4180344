//! Exports to writers that stop or are interrupted.

use crate::formats::export::row_texts::{HEADER, ODD, three};
use droid_export::{ExportFault, export};
use droid_frame::{Criteria, Filter, HashKind, Noted};
use droid_pronom::Registry;
use droid_testing::{Manner, SAMPLE, STEADY, ShakyWriter, Stop};
use std::alloc::{AllocError, Global};
use std::test::Fail;

/// Exports the three records to a writer, and returns whether it has got their text, or exactly the first `written`
/// bytes if the text is longer. Then the error has to say so.
fn gives(
    alloc: Global,
    registry: &Registry,
    text: &[u8],
    writer: ShakyWriter,
    written: usize,
) -> Result<bool, AllocError> {
    let records = three(alloc)?;
    let filter = Filter {
        all: true,
        criteria: Criteria::new(alloc),
    };
    let mut stream = Noted::new(writer);
    let answer = export(
        alloc,
        &records,
        registry,
        &filter,
        HashKind::Md5,
        &mut stream,
    );
    let ends = match answer {
        Ok(()) => text.len() <= written,
        Err(ExportFault::Write { written: count }) => count == written && written < text.len(),
        Err(ExportFault::Memory) => false,
    };
    let first = written.min(text.len());
    Ok(ends && text.get(..first) == Some(stream.stream.taken()))
}

/// The number of bytes that a call takes, the number of first calls that are interrupted, and the number of bytes that
/// are written.
const MANNERS: [(usize, u32, usize); 3] = [
    (1, 0, usize::MAX),
    (usize::MAX, 64, usize::MAX),
    (usize::MAX, 65, 0),
];

/// A writer that stops once and would then take the rest is not asked again.
#[test]
fn stopped_and_interrupted_writers(rt: HostRuntime) -> Result<(), Fail> {
    let alloc = rt.alloc();
    let registry = Registry::parse(alloc, SAMPLE.as_bytes())?;
    let [first, second, third] = ODD;
    let text = format!(in alloc; "{HEADER}{first}{second}{third}")?;
    let text = text.as_bytes();
    for stop in [Stop::Fails, Stop::Ends] {
        for room in 0..text.len() {
            let writer = ShakyWriter::new(Vec::new(alloc), room, stop, STEADY);
            assert!(rt; gives(alloc, &registry, text, writer, room)?, "{room}");
        }
    }
    for (width, interruptions, written) in &MANNERS {
        let manner = Manner {
            width: *width,
            interruptions: *interruptions,
            ..STEADY
        };
        let writer = ShakyWriter::new(Vec::new(alloc), usize::MAX, Stop::Fails, manner);
        assert!(rt; gives(alloc, &registry, text, writer, *written)?);
    }
    Ok(())
}
