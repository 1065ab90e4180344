//! Makes the page of a profile's CSV from its bytes and texts: no clock and no file.

ghost use Rattle.std.specs.Prelude.{◌≡◌, ℕ, List, IfOk, option_map, string_bytes};
ghost use Rattle.csv.specs.Reading.{AreRecords, default_config, strip_bom};
ghost use Rattle.csv.specs.declared.parser.State.TheVariants as st;
ghost use Rattle.droid_report.specs.ShownReports.{IsPage};
ghost use Rattle.droid_cmd_profile.specs.Abouts.{about_text};
ghost use Rattle.droid_cmd_profile.specs.PagesOfCsv.{Gives};

use crate::pages::about::About;
use droid_export::ListFault;
use droid_frame::HashKind;
use droid_report::{ProfileFault, Report, read_report, report_page};
use std::alloc::{AllocError, Global};

/// What a page shows beside the counts of a CSV.
#[derive(Clone, Copy)]
pub struct PageTexts<'a> {
    /// Its title.
    pub title: &'a str,
    /// When it is made, in UTC.
    pub moment: &'a str,
    /// The name of the CSV.
    pub name: &'a str,
    /// Which registry identified the files, or `None` if that is not known.
    pub registry: Option<&'a str>,
}

/// Makes the page of a profile's CSV. It refuses what [`droid_report::read_report`] refuses.
///
/// Records are what the kit's `csv` reads by its default rules, behind a byte order mark if there is one: `AreRecords`
/// and `strip_bom` are its definitions.
pub fn page_of_csv(alloc: Global, csv: &[u8], texts: PageTexts<'_>) -> Result<String, ProfileFault>
    // The page is that of the records that `csv` reads, unless memory runs out.
    ensures { (records : List (List (List ℕ))) → AreRecords default_config st.StartRecord (strip_bom csv.now) records
        → Gives texts.entry.title.now texts.entry.moment.now texts.entry.name.now
        (option_map (λ text. text.now) texts.entry.registry) records result }
{
    let report = match read_report(alloc, csv) {
        Ok(report) => report,
        Err(fault) => return Err(fault),
    };
    match page_of(alloc, &report, texts) {
        Ok(page) => Ok(page),
        Err(_) => Err(ProfileFault::Csv(ListFault::Memory)),
    }
}

/// Makes the page of a report: the counts and the hash of a CSV that was read. Fails only if memory runs out.
fn page_of(alloc: Global, report: &Report, texts: PageTexts<'_>) -> Result<String, AllocError>
    ensures { IfOk result (λ page.
        IsPage texts.entry.title.now
        (about_text texts.entry.moment.now texts.entry.name.now (option_map (λ text. text.now) texts.entry.registry)
        report.now.hash)
        report.now.counts (string_bytes page)) }
{
    let about = about_of(alloc, texts, report.hash)?;
    let page = report_page(alloc, texts.title, about.as_str(), &report.counts)?;
    Ok(page)
}

/// Returns the lines above the page's tables: of which CSV it was made, when, by which registry, and which hash it has.
/// Fails only if memory runs out.
fn about_of(alloc: Global, texts: PageTexts<'_>, hash: HashKind) -> Result<String, AllocError>
    ensures { IfOk result (λ about.
        string_bytes about
        ≡ about_text texts.entry.moment.now texts.entry.name.now (option_map (λ text. text.now) texts.entry.registry)
        hash) }
{
    let about = About {
        moment: texts.moment,
        name: texts.name,
        registry: texts.registry,
        hash,
    };
    let about = format!(in alloc; "{about}")?;
    Ok(about)
}
