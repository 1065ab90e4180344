//! A count beside its limit: whether there is room for one more.

ghost use Rattle.std.specs.Prelude.{◌≡◌, nat_le};

/// A count of profiles, nodes or unfinished files, beside its limit.
#[derive(Clone, Copy)]
pub struct Room {
    /// How many there are.
    pub count: u64,
    /// How many there may be.
    pub limit: u32,
}

impl Room {
    /// Returns whether the count has reached the limit, or is past it: then there is no room for one more.
    pub fn is_full(self) -> bool
        ensures { result ≡ nat_le self.limit self.count }
    {
        u64::from(self.limit) <= self.count
    }
}
