//! Bytes and schedules by chance, the same in each run.

ghost use Rattle.std.specs.Prelude.{◌<◌};

pub(crate) const LEN: usize = 4096;

// The next of a sequence of numbers that looks like chance (Knuth's constants).
pub(crate) fn next(seed: u64) -> u64 {
    seed.wrapping_mul(6_364_136_223_846_793_005)
        .wrapping_add(1_442_695_040_888_963_407)
}

pub(crate) fn below(seed: u64, n: u64) -> usize
    requires { 0 < n }
    ensures { result < n }
{
    (seed / 8_589_934_592 % n) as usize
}

pub(crate) fn filled() -> [u8; LEN] {
    let mut bytes = [0u8; LEN];
    let mut seed = 1;
    for i in 0..LEN {
        seed = next(seed);
        bytes[i] = below(seed, 256) as u8;
    }
    bytes
}

// The bytes from `from` to `to`; none where there are no such bytes.
pub(crate) fn part(bytes: &[u8; LEN], from: usize, to: usize) -> &[u8] {
    if from > to || to > LEN {
        return &bytes[..0];
    }
    &bytes[from..to]
}

/// Where a lane's message begins in the bytes, and where it ends so far.
#[derive(Clone, Copy)]
pub(crate) struct Span {
    from: usize,
    to: usize,
}

impl Span {
    // An empty message at one of the first thousand bytes.
    pub(crate) fn at(seed: u64) -> Span {
        let from = below(seed, 1000);
        Span { from, to: from }
    }

    // The next piece, which is empty where the bytes are at an end.
    pub(crate) fn piece(self, bytes: &[u8; LEN], len: usize) -> &[u8] {
        part(bytes, self.to, self.to.saturating_add(len))
    }

    // The span with so many bytes more, of that piece.
    pub(crate) fn grown(self, bytes: &[u8; LEN], len: usize, count: usize) -> Span {
        let more = self.piece(bytes, len).len().min(count);
        Span {
            from: self.from,
            to: self.to.saturating_add(more),
        }
    }

    pub(crate) fn bytes(self, bytes: &[u8; LEN]) -> &[u8] {
        part(bytes, self.from, self.to)
    }
}

// How long the lanes' next pieces are: a third are empty, a third short, a third long. In every fourth turn one lane
// alone has a piece.
pub(crate) fn lens(seed: u64, turn: usize) -> [usize; 8] {
    let mut lens = [0usize; 8];
    let mut seed = seed;
    for lane in 0..8 {
        seed = next(seed);
        lens[lane] = match seed / 4_294_967_296 % 3 {
            0 => 0,
            1 => below(seed, 70),
            _ => below(seed, 400),
        };
        if turn % 4 == 3 && lane != turn / 4 % 8 {
            lens[lane] = 0;
        }
    }
    lens
}
