//! The service that is made of recovered holdings, at the end of a journal.

ghost use Rattle.std.specs.NonZero.{non_zero_usize_get};
ghost use Rattle.std.specs.Prelude.{◌≡◌, IfOk};
ghost use Rattle.droid_core.specs.Cached.{cache_size_of};
ghost use Rattle.droid_core_spec.specs.Histories.{History, world_of};
ghost use Rattle.droid_core_spec.specs.Setting.{Setting};
ghost use Rattle.droid_core.specs.Standing.{StandsFor, limits_of, registry_of};
ghost use Rattle.droid_recovery.specs.BareWorlds.{Bare, HaveEnded};
ghost use Rattle.droid_recovery.specs.Recovering.{Recovers};
ghost use Rattle.droid_core.specs.HoldingsStanding.{limits_given};

use droid_core::{Holdings, Service};
use std::alloc::AllocError;
use std::num::NonZeroUsize;

/// Makes a service of recovered holdings, which caches up to `places` replies. Once each bare file has ended, it stands
/// for the history, as a service does that got all bytes: so it answers every request as that one does. Fails only if
/// there is no memory.
pub fn service_of(holdings: Holdings, places: NonZeroUsize) -> Result<Service, AllocError>
    ensures stands { IfOk result (λ service.
        (setting : Setting) (bare : Bare) (history : History) → Recovers setting bare holdings history
        → HaveEnded bare (world_of setting history) → StandsFor setting service history) }
    ensures limits { IfOk result (λ service. limits_of service ≡ limits_given holdings.limits) }
    ensures registry { IfOk result (λ service. registry_of service ≡ holdings.registry) }
    ensures cache { IfOk result (λ service. cache_size_of service ≡ non_zero_usize_get places) }
{
    let service = Service::of(holdings, places)?;
    Ok(service)
}
