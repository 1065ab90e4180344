// Each test also passes if any one allocation is refused: tests/memory refuses each in turn.
//! Out of memory: a call that fails for it works when it is called again.

use droid_frame::Method;
use droid_pronom::Registry;
use droid_testing::SAMPLE;
use std::alloc::{AllocError, Global};
use std::test::Fail;

/// Three formats, each with priority over the next.
const CHAIN: &str = "F,t/1,A,,,\n\
F,t/2,B,,,\n\
F,t/3,C,,,\n\
E,t/3,q,,,\n\
S,t/1,BOF,0,0,61\n\
S,t/2,BOF,0,0,6162\n\
S,t/3,BOF,0,0,616263\n\
P,t/1,t/2,,,\n\
P,t/2,t/3,,,\n";

/// Returns whether the registry has the four formats of the sample, the last one with its four texts, and no fifth.
fn is_sample(registry: &Registry) -> bool {
    for (place, puid) in ["dev/1", "dev/2", "dev/3", "dev/4"].iter().enumerate() {
        if registry.by_puid(puid) != Some(place as u32) {
            return false;
        }
    }
    let is_plain = match registry.format(3) {
        Some(format) => {
            format.puid.as_str() == "dev/4"
                && format.name.as_str() == "Plain"
                && format.version.as_str() == ""
                && format.mime.as_str() == "text/plain"
        }
        None => false,
    };
    let has_fifth = registry.format(4).is_some() || registry.by_puid("dev/5").is_some();
    is_plain && !has_fifth && registry.len() == 4 && !registry.is_empty()
}

#[test]
fn each_growth_of_a_registry(rt: HostRuntime) -> Result<(), Fail> {
    let alloc = rt.alloc();
    let file = SAMPLE.as_bytes();
    let registry = Registry::parse(alloc, file).or_else(|_| Registry::parse(alloc, file))?;
    assert!(rt; is_sample(&registry));
    Ok(())
}

/// Returns whether the first format of the chain is found in a file of three bytes, and no other.
fn is_found(alloc: Global, registry: &Registry) -> Result<bool, AllocError> {
    let bytes = b"abc";
    let found = registry.identify(alloc, "x.q", bytes, bytes, 3, false)?;
    let is_named = match found.puids.get(0) {
        Some(puid) => puid.as_str() == "t/1",
        None => false,
    };
    Ok(is_named && found.puids.len() == 1 && found.method == Method::Signature && !found.mismatch)
}

#[test]
fn each_growth_of_a_search(rt: HostRuntime) -> Result<(), Fail> {
    let alloc = rt.alloc();
    let file = CHAIN.as_bytes();
    let registry = Registry::parse(alloc, file).or_else(|_| Registry::parse(alloc, file))?;
    assert!(rt; is_found(alloc, &registry).or_else(|_| is_found(alloc, &registry))?);
    Ok(())
}
