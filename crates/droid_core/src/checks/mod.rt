//! The conditions under which requests are refused. `specs/Conditions.antt` and `Judging.antt` of droid_core_spec
//! define them; the prover ties each number and each order here to them.

pub mod options;
pub mod paths;
pub mod refusals;
pub mod room;
