//! How a command ends by a CSV that is none of a profile: for the commands above too.

ghost use Rattle.std.specs.Prelude.{◌≡◌};
ghost use Rattle.droid_cmd_profile.specs.Endings.{told_no_csv};
ghost use Rattle.droid_terminal.specs.Endings.{told};

use droid_export::ListFault;
use droid_terminal::{About, Detail, Ending, faults};

/// Returns the ending where the CSV at this path is malformed or contradicts itself, or memory ran out. Its sentence
/// names the record and the column at fault, as far as there are such.
pub fn told_no_csv<'a>(fault: ListFault, csv: &'a str) -> Ending<'a>
    ensures { told result ≡ told_no_csv fault csv.now }
{
    let about = About::Path(csv);
    match fault {
        ListFault::Memory => Ending::by(faults::MEMORY, About::Nothing),
        ListFault::Header => Ending::by(faults::LIST_OTHER, about),
        ListFault::Missing { column } => Ending::detailed(
            faults::LIST_LACKS,
            about,
            Detail::Words(column.names()),
        ),
        ListFault::Fields { record } => {
            Ending::detailed(faults::LIST_FIELDS, about, Detail::Number(record))
        }
        ListFault::Column {
            record,
            column,
            hash,
        } => Ending::detailed(
            faults::LIST_WRONG,
            about,
            Detail::Numbered(record, ": ", column.name(hash)),
        ),
        ListFault::Contradiction { record, column } => Ending::detailed(
            faults::LIST_CONTRADICTS,
            about,
            Detail::Numbered(record, ": ", column.names()),
        ),
    }
}
