//! Makes a fresh service: empty, with the program's limits and a registry that is read first.

ghost use Rattle.std.specs.Prelude.{◌≡◌, IfErr, IfOk, IsErrOf};
ghost use Rattle.droid_frame.specs.Seen.{IsSound, ReportsFault};
ghost use Rattle.droid_cmd_serve.specs.Fresh.{IsMadeOf, IsMadeWith, IsNoService, IsNotMadeOf};

use crate::exit::Ending;
use droid_core::{Limits, Service};
use droid_frame::SteadyRead;
use droid_pronom::{Registry, RegistryFault};
use std::alloc::Global;

/// The limits of the program's service: `program_limits` of `specs/Endings.antt`, which the prover ties. The header of
/// a journal has the same three numbers (`header.rt`, `specs/Journals.antt`), and no clause ties those to these.
/// docs/SERVICE.md has them too, and 64 profiles the help of `submit` and a sentence of `droid_terminal` (`faults.rt`).
pub const LIMITS: Limits = Limits {
    profiles: 64,
    nodes: 100_000,
    unfinished: 64,
};

/// Reads a registry file, and makes an empty service that identifies files by it and has the program's limits. Sets
/// `formats` to the number of formats that the registry has, once it was read: no clause holds it, since it is only
/// noted.
pub fn fresh_service<F: SteadyRead>(
    alloc: Global,
    file: &mut F,
    formats: &mut Option<usize>,
) -> Result<Service, Ending>
    ensures made { IfOk result (IsMadeOf (F.remaining file.old)) }
    ensures not_made { IfErr result (IsNotMadeOf (F.remaining file.old)) }
    // A fault of the file is reported exactly if reading failed, or was interrupted too often.
    ensures registry_fault { IsSound (F.seen file.old) →
        ReportsFault (F.seen file.old).interruptions (F.seen file.new)
        (IsErrOf result (Ending.Registry RegistryFault.Read)) }
{
    match Registry::read(alloc, file) {
        Ok(registry) => {
            *formats = Some(registry.len());
            service_with(alloc, registry)
        }
        Err(fault) => Err(Ending::Registry(fault)),
    }
}

/// Makes an empty service that identifies files by this registry and has the program's limits. If that fails, the
/// ending is `NoService`.
pub(crate) fn service_with(alloc: Global, registry: Registry) -> Result<Service, Ending>
    ensures made { IfOk result (IsMadeWith registry) }
    ensures not_made { IfErr result IsNoService }
    ensures registry_read { (fault : _) → IsErrOf result (Ending.Registry fault) → ⊥ }
{
    match Service::new(alloc, registry, LIMITS) {
        Ok(service) => Ok(service),
        Err(fault) => Err(Ending::NoService(fault)),
    }
}
