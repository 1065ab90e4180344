//! Which replies are cached: those that were used last, as many as there are places.

use crate::requests::steps::{CREATE, LARGEST, Step, is_answered, is_made, service};
use droid_core::Service;
use droid_pronom::Registry;
use droid_testing::SAMPLE;
use std::alloc::Global;

/// How many places there are, the numbers that are used in turn, which of them are cached then, and which are not. A
/// number that is used first is that of the next folder.
type Use<'a> = (usize, &'a [u64], &'a [u64], &'a [u64]);

const USED: &[Use] = &[
    (1, &[1], &[1], &[2]),
    (1, &[1, 2], &[2], &[1]),
    (1, &[1, 2, 1], &[1], &[2]),
    (2, &[1, 2], &[1, 2], &[3]),
    (2, &[1, 2, 3], &[2, 3], &[1]),
    (2, &[1, 2, 1, 3], &[1, 3], &[2]),
    (3, &[1, 2, 3, 1, 2, 4, 1, 5], &[1, 4, 5], &[2, 3]),
];

/// The profile is made under another number of another client, which leaves the cache as the folders come.
const PROFILE: Step = ("9 9 create 65536 0", "made 1\n");

/// Whether the reply under a number is cached for client 1 alone.
fn is_near(service: &Service, number: u64) -> bool {
    service.is_cached(1, number) & !service.is_cached(2, number)
}

fn are_used(alloc: Global, used: &Use<'_>) -> bool {
    let (places, numbers, near, far) = *used;
    let Some(mut service) = service(alloc, LARGEST, places) else {
        return false;
    };
    let mut right = is_answered(alloc, &mut service, &PROFILE);
    for number in numbers {
        right &= is_made(alloc, &mut service, *number, *number);
    }
    for number in near {
        right &= is_near(&service, *number);
    }
    for number in far {
        right &= !is_near(&service, *number);
    }
    right & (service.cached() <= places)
}

#[test]
fn used_last(rt: HostRuntime) {
    for used in USED {
        assert!(rt; are_used(rt.alloc(), used), "{used:?}");
    }
}

/// A step, a number under which a reply is cached after it, and one under which none is.
type Turn<'a> = (Step<'a>, u64, u64);

// In a cache of one place: what is accepted, what is read from the store, and what is neither, one after the other.
const TURNS: &[Turn] = &[
    (CREATE, 1, 2),
    (("1 2 folder 1 0 0 in", "node 1\n"), 2, 1),
    (CREATE, 1, 2),
    (("1 2 folder 1 0 0 out", "refused 2\n"), 2, 1),
    (("1 3 folder 1 0 0 in", "refused 9\n"), 2, 3),
    (("1 3 export 1 0 2", "part 2 296 2\n\"I"), 2, 3),
];

/// A reply is cached if its request was accepted, and if it was read from the store.
#[test]
fn cached(rt: HostRuntime) {
    let mut service = service(rt.alloc(), LARGEST, 1).expect(&rt, "a service");
    for (step, near, far) in TURNS {
        let right = is_answered(rt.alloc(), &mut service, step);
        assert!(rt; right && is_near(&service, *near) && !service.is_cached(1, *far));
    }
}

/// What is asked after a profile and 256 folders: the first of all again, the last, the first folder, and another
/// profile under the first number.
const LATER: [Step; 4] = [
    CREATE,
    ("1 257 folder 1 0 0 f257", "node 256\n"),
    ("1 2 folder 1 0 0 f2", "node 1\n"),
    ("1 1 create 65535 0", "refused 2\n"),
];

/// One more request is accepted than a service caches, so the first is not cached when it comes again. It has this many
/// places.
fn are_answered(alloc: Global, service: Option<Service>, places: usize) -> bool {
    let Some(mut service) = service else {
        return false;
    };
    let mut right = service.cached() == 0;
    right &= is_answered(alloc, &mut service, &CREATE);
    for id in 1..257u64 {
        right &= is_made(alloc, &mut service, id.saturating_add(1), id);
    }
    for step in LATER {
        right &= is_answered(alloc, &mut service, &step);
    }
    right & (service.cached() == places)
}

/// A service that says nothing of its cache has 256 places.
#[test]
fn more_than_are_cached(rt: HostRuntime) {
    let alloc = rt.alloc();
    assert!(rt; are_answered(alloc, service(alloc, LARGEST, 1), 1));
    assert!(rt; are_answered(alloc, service(alloc, LARGEST, 256), 256));
    let registry = Registry::parse(alloc, SAMPLE.as_bytes()).ok();
    let usual = Service::new(alloc, registry.expect(&rt, "a registry"), LARGEST).ok();
    assert!(rt; are_answered(alloc, usual, 256));
}
