//! The counts of a small profile, and the example of crates/droid_report/README.md.

use droid_report::{list_groups, rank_by_count, rank_by_saved, read_report, report_page};
use std::test::Fail;

/// A profile of two equal files.
const CSV: &str =
    "ID,PARENT_ID,URI,FILE_PATH,NAME,METHOD,STATUS,SIZE,TYPE,EXT,LAST_MODIFIED,EXTENSION_MISMATCH,MD5_HASH,\
    FORMAT_COUNT,PUID,MIME_TYPE,FORMAT_NAME,FORMAT_VERSION\n\
1,,file:/a.txt,/a.txt,a.txt,Extension,Done,3,File,txt,1970-01-01T00:00:00,false,900150983cd24fb0d6963f7d28e17f72,1,\
x-fmt/111,text/plain,Plain Text File,\n\
2,,file:/b.txt,/b.txt,b.txt,Extension,Done,3,File,txt,1970-01-01T00:00:00,false,900150983cd24fb0d6963f7d28e17f72,1,\
x-fmt/111,text/plain,Plain Text File,\n";

#[test]
fn counts_of_equal_files(rt: HostRuntime) -> Result<(), Fail> {
    let alloc = rt.alloc();
    // the profile of two equal text files of three bytes each
    let Ok(report) = read_report(alloc, CSV.as_bytes()) else {
        return Err(Fail::from("no profile"));
    };
    let files = report.counts.totals.files;
    let formats = rank_by_count(list_groups(alloc, &report.counts.formats, 1)?)?;
    let copies = rank_by_saved(list_groups(alloc, &report.counts.contents, 2)?)?;
    assert!(rt; files == 2 && formats.len() == 1 && copies.len() == 1);
    assert!(rt; formats[0].key == "x-fmt/111" && formats[0].count == 2 && copies[0].saved == 3);
    Ok(())
}

#[test]
fn example_of_report_pages(rt: HostRuntime) -> Result<(), Fail> {
    let alloc = rt.alloc();
    // the profile of two equal text files of three bytes each
    let Ok(report) = read_report(alloc, CSV.as_bytes()) else {
        return Err(Fail::from("no profile"));
    };
    let page = report_page(alloc, "letters", "made by hand", &report.counts)?;
    assert!(rt; page.as_str().contains("<title>letters</title>"));
    Ok(())
}
