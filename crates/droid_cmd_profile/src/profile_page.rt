//! The page of a profile that was just written. The calls below are proved, and what joins them here, without
//! contracts, is tested by `tests/program/folders/profile_report.py`.

use crate::named_registry::RegistryName;
use crate::pages::csv_report::{page_now, put_page, title_of};
use crate::pages::page_fault::PageFault;
use crate::profile_ending::ProfileEnding;
use droid_arguments::ProfileOptions;
use droid_disk::Output;
use droid_terminal::{absolute_path, name_of};
use std::fs::{File, Files};
use std::time::Clock;

/// Writes the page of the CSV that was kept, if a page is wanted and everything else was written; otherwise removes the
/// page's file. Returns the ending of the profile, or that the page alone is missing.
pub(crate) fn add_page<R>(
    rt: &R,
    registry: RegistryName<'_>,
    options: ProfileOptions<'_>,
    ending: ProfileEnding,
    csv: &Option<Vec<u8>>,
    page: Option<Output<'_, R>>,
) -> ProfileEnding
where
    R: Files<File = File> + Clock + AllocGlobal,
{
    let Some(page) = page else {
        return ending;
    };
    match csv {
        Some(csv) if ending.is_written() => {
            ending.with_page(write_page_of(rt, registry, options, csv.as_slice(), page))
        }
        _ => {
            page.give_up();
            ending
        }
    }
}

/// Makes the page of a CSV, and writes it to its file. If there is no page, or it can't be written, removes the file.
fn write_page_of<R>(
    rt: &R,
    registry: RegistryName<'_>,
    options: ProfileOptions<'_>,
    csv: &[u8],
    page: Output<'_, R>,
) -> Result<(), PageFault>
where
    R: Files<File = File> + Clock + AllocGlobal,
{
    match page_of(rt, registry, options, csv) {
        Ok(text) => put_page(page, text.as_str()),
        Err(fault) => {
            page.give_up();
            Err(fault)
        }
    }
}

/// Makes the page of a CSV. Its title is the folder's name; it says that it is made from the CSV's file, or from the
/// folder if there is no such file. Fails if memory runs out; `Refused` is possible for the types alone.
fn page_of<R>(
    rt: &R,
    registry: RegistryName<'_>,
    options: ProfileOptions<'_>,
    csv: &[u8],
) -> Result<String, PageFault>
where
    R: Files<File = File> + Clock + AllocGlobal,
{
    let registry = format!(in rt.alloc(); "{registry}")?;
    let folder = absolute_path(rt, options.folder)?;
    let title = title_of(folder.as_str());
    let name = name_of(options.output.unwrap_or(folder.as_str()));
    let text = page_now(rt, csv, title, name, Some(registry.as_str()))?;
    Ok(text)
}
