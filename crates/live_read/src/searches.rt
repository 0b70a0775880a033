//! Where callers search for free records, and which shard of a lock they read by.

ghost use Rattle.std.specs.Prelude.{◌≡◌, ◌+◌, ◌-◌, ◌^◌, ◌%◌, ◌<◌, ◌≤◌, min};

/// 2^64 divided by the golden ratio, and odd. Its multiples spread evenly over all numbers below 2^64.
const GOLDEN: u64 = 11_400_714_819_323_198_485;

/// How many searches go on one behind the other.
const NEIGHBOURS: u32 = 64;

/// Over how many shards callers spread: crossbeam's `ShardedLock` has as many.
const SHARDS: usize = 8;

/// Where the searches of a caller begin, and which shard of a lock it reads by. A search goes on behind the record that
/// the one before took, as next fit does, since neighbours share cache lines. After 64 searches it goes on elsewhere:
/// two threads that met would else stay among the same records.
#[derive(Drop)]
pub struct Searches {
    place: u64,
    next: usize,
    left: u32,
    shard: usize,
    split: usize,
    ghost few: { (shard < 8) × (split < 8) },
}

/// The last steps of SplitMix64: numbers that are near one another lead far apart.
fn mixed(number: u64) -> u64 {
    let number = (number ^ (number >> 30)).wrapping_mul(13_787_848_793_156_543_929);
    let number = (number ^ (number >> 27)).wrapping_mul(10_723_151_780_598_845_931);
    number ^ (number >> 31)
}

impl Searches {
    /// Those of a first caller.
    pub(crate) fn new() -> Searches {
        Searches {
            place: 0,
            next: 0,
            left: 0,
            shard: 0,
            split: 0,
        }
    }

    /// Those of another caller, which begin elsewhere. Eight callers that one caller made in turn have different shards.
    pub(crate) fn split(&mut self) -> Searches
        ensures { (result.shard ≡ (self.old.split + 1) % 8) × (self.new.split ≡ result.shard) }
    {
        self.go_elsewhere();
        self.split = (self.split + 1) % SHARDS;
        Searches {
            place: mixed(self.place),
            next: 0,
            left: 0,
            shard: self.split,
            split: self.split,
        }
    }

    // The next place of its own.
    fn go_elsewhere(&mut self)
        ensures { (self.new.next ≡ self.old.next) × (self.new.left ≡ self.old.left) × (self.new.shard ≡ self.old.shard) × (self.new.split ≡ self.old.split) }
    {
        self.place = self.place.wrapping_add(GOLDEN);
    }

    /// At which record of a pool of this size the next search begins. A place that is the size itself names no record.
    pub(crate) fn start(&mut self, pool: usize) -> usize
        ensures place { result ≤ pool }
        ensures behind { 0 < self.old.left → (result ≡ min self.old.next pool) × (self.new.left + 1 ≡ self.old.left) }
        ensures elsewhere { self.old.left ≡ 0 → self.new.left ≡ 63 }
    {
        if self.left == 0 {
            self.go_elsewhere();
            // As large a part of the pool as the 16 highest bits of the place are of 2^16.
            self.next = ((self.place >> 48) as usize).wrapping_mul(pool.wrapping_add(1)) >> 16;
            self.left = NEIGHBOURS;
        }
        self.left -= 1;
        self.next.min(pool)
    }

    /// The search took this record.
    pub(crate) fn took(&mut self, cell: usize)
        ensures { (self.new.next ≡ min (cell + 1) (2 ^ 64 - 1)) × (self.new.left ≡ self.old.left) }
    {
        self.next = cell.saturating_add(1);
    }

    /// Which shard the caller reads by.
    pub(crate) fn shard(&self) -> usize
        ensures { (result ≡ self.now.shard) × (result < 8) }
    {
        self.shard
    }
}
