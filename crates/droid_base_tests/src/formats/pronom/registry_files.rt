//! Registry files, their readers, and texts of faults. (Faults and limits are tested in tests/program/registry.sh.)

use droid_export::ExportFault;
use droid_frame::Noted;
use droid_pattern::PatternFault;
use droid_pronom::{Registry, RegistryFault, extension};
use droid_testing::{Manner, NOWHERE, Place, SAMPLE, STEADY, ShakyReader, Stop};
use std::alloc::Global;
use std::test::Fail;

/// Registry files without a fault, and the number of their formats.
#[rattlefmt::skip]
const FILES: [(&str, usize); 9] = [
    ("", 0),
    ("\n\n", 0),
    ("F,dev/1,A,,,\n", 1),
    ("F,dev/1,A,,,\n\n\r\n", 1),
    ("F,dev/1,A,,,\n\"F\",\"dev/2\",\"B \"\"b\"\"\",,,\n", 2),
    ("F,dev/1,A,,,\nE,dev/1,x,,,\nE,dev/1,x,,,\n", 1),
    ("F,dev/1,A,,,\nS,dev/1,BOF,0,65535,61\n", 1),
    ("F,dev/1,A,,,\nS,dev/1,BOF,00000,00001,61\n", 1),
    ("F,dev/1,A,,,\nS,dev/1,BOF,0,0,61\nB,dev/1,EOF,0,0,62\nB,dev/1,BOF,1,1,63\n", 1),
];

#[test]
fn numbers_of_formats(rt: HostRuntime) -> Result<(), Fail> {
    for (text, count) in &FILES {
        let registry = Registry::parse(rt.alloc(), text.as_bytes())?;
        assert!(rt; registry.len() == *count, "of {text:?}");
        assert!(rt; registry.is_empty() == (*count == 0), "of {text:?}");
    }
    assert!(rt; extension("") == "");
    Ok(())
}

/// Where a reader of the sample is interrupted, after how many bytes it stops, and how, and whether the registry comes.
#[rattlefmt::skip]
const READERS: [([Place; 3], usize, Stop, bool); 6] = [
    ([NOWHERE; 3], SAMPLE.len(), Stop::Ends, true),
    ([(0, 30), (30, 30), (150, 4)], SAMPLE.len(), Stop::Ends, true),
    ([(0, 30), (30, 30), (150, 5)], SAMPLE.len(), Stop::Ends, false),
    ([NOWHERE; 3], SAMPLE.len(), Stop::Fails, false),
    ([NOWHERE; 3], 0, Stop::Fails, false),
    ([(0, 30), (30, 30), (60, 4)], 150, Stop::Fails, false),
];

/// Returns whether the registry of the sample comes, three bytes at a time, or `None` if the fault is not the reader's.
fn comes(alloc: Global, places: [Place; 3], end: usize, stop: Stop) -> Option<bool> {
    let manner = Manner {
        width: 3,
        places,
        ..STEADY
    };
    let bytes = SAMPLE.as_bytes().get(..end)?;
    let mut reader = Noted::new(ShakyReader::new(bytes, stop, manner));
    match Registry::read(alloc, &mut reader) {
        Ok(registry) => Some(registry.len() == 4),
        Err(RegistryFault::Read) => Some(false),
        Err(_) => None,
    }
}

#[test]
fn readers(rt: HostRuntime) {
    for (places, end, stop, expected) in &READERS {
        let read = comes(rt.alloc(), *places, *end, *stop);
        assert!(rt; read == Some(*expected), "{end}");
    }
}

const FAULTS: &str =
    "the text is no pattern; out of memory; out of memory; the export could not be written past its first 7 bytes";

#[test]
fn texts_of_faults(rt: HostRuntime) -> Result<(), Fail> {
    let text = format!(in rt.alloc();
        "{}; {}; {}; {}",
        PatternFault::BadPattern,
        PatternFault::Memory,
        ExportFault::Memory,
        ExportFault::Write { written: 7 }
    )?;
    assert!(rt; text.as_str() == FAULTS);
    Ok(())
}
