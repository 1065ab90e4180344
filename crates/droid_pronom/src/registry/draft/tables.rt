//! F, E and P records: a format, an extension and a priority. `specs/RegistryRecords.antt` has the order of the faults.

ghost use Rattle.droid_pronom.specs.RegistryCalls.{draft_of, Gives};
ghost use Rattle.droid_pronom.specs.RegistryRecords.{format_taken, extension_taken, priority_taken};

use crate::format::Format;
use crate::letter_case::lower_case;
use crate::record_forms::{is_format, is_listing, is_priority};
use crate::registry::FORMATS_LIMIT;
use crate::registry::draft::{Draft, ROWS_LIMIT};
use crate::registry::fault::{Fault, Refusal, check};
use crate::rows::{ListedExtension, Priority};
use droid_frame::Text;
use std::alloc::Global;

impl Draft {
    /// Adds an F record, or returns what is wrong with it: the first of `BadRecord`, `DuplicatePuid` and `TooMany`.
    #[tactic(auto, unfolding(crate::specs::RegistryRecords::format_taken))]
    pub(crate) fn take_format(
        &mut self,
        alloc: Global,
        puid: &str,
        name: &str,
        version: &str,
        mime: &str,
        empty: &str,
    ) -> Result<(), Refusal>
        ensures { Gives (λ _. draft_of self.new) result
            (format_taken (draft_of self.old) puid.now name.now version.now mime.now empty.now) }
    {
        check(
            is_format(puid, name, version, mime, empty),
            Fault::BadRecord,
        )?;
        check(self.registry.by_puid(puid).is_none(), Fault::DuplicatePuid)?;
        check(self.registry.len() < FORMATS_LIMIT, Fault::TooMany)?;
        let format = Format {
            puid: Text::copy_of(alloc, puid)?,
            name: Text::copy_of(alloc, name)?,
            version: Text::copy_of(alloc, version)?,
            mime: Text::copy_of(alloc, mime)?,
        };
        self.registry.push_format(alloc, format)?;
        self.current = None;
        Ok(())
    }

    /// Adds an E record, with its extension in lower case, or returns what is wrong with it: the first of `BadRecord`,
    /// `UnknownPuid` and `TooMany`.
    #[tactic(auto, unfolding(crate::specs::RegistryRecords::extension_taken))]
    pub(crate) fn take_extension(
        &mut self,
        alloc: Global,
        puid: &str,
        extension: &str,
        empty: &str,
        more: &str,
        last: &str,
    ) -> Result<(), Refusal>
        ensures { Gives (λ _. draft_of self.new) result
            (extension_taken (draft_of self.old) puid.now extension.now empty.now more.now last.now) }
    {
        check(
            is_listing(puid, extension, empty, more, last),
            Fault::BadRecord,
        )?;
        let place = self.known(puid)?;
        check(
            self.registry.extensions().len() < ROWS_LIMIT,
            Fault::TooMany,
        )?;
        let extension = lower_case(alloc, extension)?;
        self.registry
            .push_extension(ListedExtension { place, extension })?;
        self.current = None;
        Ok(())
    }

    /// Adds a P record, or returns what is wrong with it: the first of `BadRecord`, `UnknownPuid` (for either PUID) and
    /// `TooMany`.
    #[tactic(auto, unfolding(crate::specs::RegistryRecords::priority_taken))]
    pub(crate) fn take_priority(
        &mut self,
        puid: &str,
        other: &str,
        empty: &str,
        more: &str,
        last: &str,
    ) -> Result<(), Refusal>
        ensures { Gives (λ _. draft_of self.new) result
            (priority_taken (draft_of self.old) puid.now other.now empty.now more.now last.now) }
    {
        check(
            is_priority(puid, other, empty, more, last),
            Fault::BadRecord,
        )?;
        let place = self.known(puid)?;
        let over = self.known(other)?;
        check(
            self.registry.priorities().len() < ROWS_LIMIT,
            Fault::TooMany,
        )?;
        self.registry.push_priority(Priority { place, over })?;
        self.current = None;
        Ok(())
    }
}
