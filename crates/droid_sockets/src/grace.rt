//! How long a turn waits for more requests, so that they share its sync. All of this is for speed: only the two bounds
//! of `microseconds` are proved. `tests/program/journal/shared_syncs.py` tests that requests share a sync, that a
//! connection which is alone is never waited for, and that waits in vain become rarer; no test holds the numbers.

ghost use Rattle.std.specs.Prelude.{◌+◌, ◌*◌, ◌-◌, ◌≤◌};

/// A turn that took fewer microseconds had no long sync, and nothing is waited for after it. The comment of
/// `share_syncs` has it as a millisecond.
const LONG: u64 = 1_000;

/// The most microseconds that a turn waits for more requests.
const MOST: u64 = 5_000;

/// The most turns in a row that do not wait, after waits in vain: the last of 1, 3, 7 and so on.
const MOST_SKIPPED: u32 = 63;

/// How long a turn waits for the next requests of connections that were just answered. Requests that have come could be
/// handled at once, but then the later ones would wait for two syncs: this turn's and their own.
#[derive(Clone, Copy)]
pub(crate) struct Grace {
    /// Whether turns share syncs at all.
    pub(crate) is_given: bool,
    /// When the last turn began, in microseconds.
    began: u64,
    /// How many further turns do not wait.
    skips: u32,
    /// How many turns did not wait after the last wait in vain.
    skipped: u32,
}

impl Grace {
    /// Returns the grace of turns that do not wait, until [`Sockets::share_syncs`](crate::Sockets::share_syncs) lets
    /// them.
    pub(crate) fn none() -> Grace {
        Grace {
            is_given: false,
            began: 0,
            skips: 0,
            skipped: 0,
        }
    }

    /// Returns how many microseconds the turn may wait for more requests, if the replies of the last turn were written
    /// at `now`: half as long as that turn took, if it took a millisecond, and at most `limit` milliseconds by waits of
    /// one each; never more than `MOST`. The last millisecond of `limit` is left to the wait that may exceed its time.
    pub(crate) fn microseconds(&self, now: u64, limit: u64) -> u64
        ensures half { result + result ≤ now - self.now.began }
        ensures limit { result ≤ (limit - 1) * 1000 }
    {
        let took = now.saturating_sub(self.began);
        if !self.is_given || took < LONG {
            return 0;
        }
        let most = limit.saturating_sub(1).saturating_mul(1_000);
        (took / 2).min(MOST).min(most)
    }

    /// Returns whether this turn may wait for more. After a wait in vain some turns don't, and this call counts them.
    pub(crate) fn is_due(&mut self) -> bool {
        if self.skips == 0 {
            return true;
        }
        self.skips -= 1;
        false
    }

    /// Notes whether more requests came in a wait. The more waits in a row were in vain, the more turns do not wait: 1,
    /// 3, 7, and so on up to 63 (`MOST_SKIPPED`): each time twice as many and one. After a wait that was not in vain
    /// the next one that is begins with 1 again.
    pub(crate) fn note(&mut self, came: bool) {
        if came {
            self.skipped = 0;
        } else {
            self.skipped = self
                .skipped
                .saturating_mul(2)
                .saturating_add(1)
                .min(MOST_SKIPPED);
            self.skips = self.skipped;
        }
    }

    /// Notes when a turn begins, in microseconds: how long it took is known when the next one may wait.
    pub(crate) fn begin(&mut self, now: u64) {
        self.began = now;
    }
}
