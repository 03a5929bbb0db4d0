// From a key to its list, and back.
#![tactic(auto)]

ghost use Rattle.std.specs.Prelude.{◌≡◌, ◌+◌, ◌-◌, ◌*◌, ◌/◌, ◌%◌, ◌^◌, ◌<◌, ◌≤◌, ltb};
ghost use Rattle.settings.specs.Prime.{prime_above};
ghost use Rattle.settings.specs.Sizes.{bie};
ghost use Rattle.settings.specs.Legal.{Legal};
ghost use Rattle.keys.specs.Key.{key_number, key_of, hash, place_of, rebuilt};

use settings::Settings;

// A key of up to 128 bits: the number high * 2^64 + low. Laid out as C lays it out, for C callers.
#[repr(C)]
#[derive(Clone, Copy)]
pub struct Key {
    pub high: u64,
    pub low: u64,
}

// Lists, overflow blocks and slots are numbered separately, each from 0: a type for each.
#[derive(Clone, Copy, PartialEq, Eq)]
pub struct ListNumber(pub usize);

#[derive(Clone, Copy, PartialEq, Eq)]
pub struct BlockNumber(pub usize);

#[derive(Clone, Copy, PartialEq, Eq)]
pub struct SlotNumber(pub usize);

// The free start: the first free overflow block, or nob, as the table's bits store it. It is a block's number only where it is
// not nob.
#[derive(Clone, Copy)]
pub struct FreeStart(pub usize);

// Where a key belongs: its list, and what a slot of the list stores of it.
#[derive(Clone, Copy)]
pub struct Place {
    pub list: ListNumber,
    pub entry: Key,
}

impl Key {
    // Whether no bit above the low w is set.
    pub fn within(self, w: u32) -> bool
        requires { w ≤ 128 }
        ensures { result ≡ ltb (key_number self) (2 ^ w) }
    {
        if w == 128 {
            return true;
        }
        if w >= 64 {
            return self.high < pow(w - 64);
        }
        (self.high == 0) & (self.low < pow(w))
    }

    // Where the key belongs.
    pub fn place(self, s: Settings) -> Place
        requires { Legal s × (key_number self < 2 ^ s.w) }
        ensures { result ≡ place_of s (key_number self) }
    {
        let n = s.w - s.bii;
        let entry = self.low_bits(n);
        let list = self.high_bits(n) ^ self.hash(s, entry);
        Place {
            list: ListNumber(list as usize),
            entry,
        }
    }

    // The hash of the key's entry. A key of 128 bits goes in whole: what is above its entry is cut off by literals, and no
    // shift by a setting stands before the hash.
    fn hash(self, s: Settings, entry: Key) -> u64
        requires { Legal s × (key_number entry ≡ key_number self % 2 ^ bie s) }
        ensures { result ≡ hash s (key_number entry) }
    {
        if s.w == 128 {
            return hash_of(s.a, s.b, s.bii, self.high, self.low);
        }
        hash_of(s.a, s.b, s.bii, entry.high, entry.low)
    }

    // The low n bits.
    fn low_bits(self, n: u32) -> Key
        requires { n ≤ 128 }
        ensures { result ≡ key_of (key_number self % 2 ^ n) }
    {
        if n == 128 {
            return self;
        }
        if n >= 64 {
            return Key {
                high: self.high % pow(n - 64),
                low: self.low,
            };
        }
        Key {
            high: 0,
            low: self.low % pow(n),
        }
    }

    // The bits above the low n, at most 16.
    fn high_bits(self, n: u32) -> u64
        requires { (1 ≤ n) × (n ≤ 128) × (key_number self < 2 ^ (16 + n)) }
        ensures { result ≡ key_number self / 2 ^ n }
    {
        if n == 128 {
            return 0;
        }
        if n >= 64 {
            return self.high / pow(n - 64);
        }
        self.high * pow(64 - n) + self.low / pow(n)
    }

    // The key with `top` above its low n bits.
    fn with_top(self, top: u64, n: u32) -> Key
        requires { (1 ≤ n) × (n ≤ 128) × (key_number self < 2 ^ n) × (top * 2 ^ n + key_number self < 2 ^ 128) }
        ensures { result ≡ key_of (top * 2 ^ n + key_number self) }
    {
        if n == 128 {
            return self;
        }
        if n >= 64 {
            return Key {
                high: top * pow(n - 64) + self.high,
                low: self.low,
            };
        }
        let room = pow(64 - n);
        Key {
            high: top / room,
            low: top % room * pow(n) + self.low,
        }
    }
}

impl Place {
    // The key that belongs here.
    pub fn key(self, s: Settings) -> Key
        requires { Legal s × (self.list.0 < 2 ^ s.bii) × (key_number self.entry < 2 ^ bie s) }
        ensures { result ≡ key_of (rebuilt s self.list.0 (key_number self.entry)) }
    {
        let list = self.list;
        let entry = self.entry;
        let index = (list.0 as u64) ^ hash_of(s.a, s.b, s.bii, entry.high, entry.low);
        entry.with_top(index, s.w - s.bii)
    }
}

// 2^k. A product, a quotient or a remainder by it is compiled to a shift or a mask. The exponents here are the settings'
// own, of 32 bits.
fn pow(k: u32) -> u64
    requires { k < 64 }
    ensures { result ≡ 2 ^ k }
{
    1 << k
}

// The low bii bits of ((a * E + b) mod p), where E is the low 128 - bii bits of high * 2^64 + low. Here and below the
// numbers come one by one: a struct would be copied at each call.
fn hash_of(a: u32, b: u32, bii: u32, high: u64, low: u64) -> u64
    requires { (bii ≤ 16) × (a < prime_above bii) × (b < prime_above bii) }
    ensures { result ≡ (a * ((high * 2 ^ 64 + low) % 2 ^ (128 - bii)) + b) % prime_above bii % 2 ^ bii }
{
    remainder(a, b, bii, high, low) % pow(bii)
}

// (a * E + b) mod p, with an arm for each p, since a division by a literal is compiled to a multiplication. The arm cuts
// off what is above E, by a literal too: no number that is computed from bii stands before the product with a.
fn remainder(a: u32, b: u32, bii: u32, high: u64, low: u64) -> u64
    requires { (bii ≤ 16) × (a ≤ 65536) × (b ≤ 65536) }
    ensures { result ≡ (a * (high % 2 ^ (64 - bii) * 2 ^ 64 + low) + b) % prime_above bii }
{
    match bii {
        0 => folded(a, b, high, low, 0, 0, 0) % 2,
        1 => folded(a, b, high % 9223372036854775808, low, 1, 1, 1) % 3,
        2 => folded(a, b, high % 4611686018427387904, low, 1, 1, 1) % 5,
        3 => folded(a, b, high % 2305843009213693952, low, 4, 5, 9) % 11,
        4 => folded(a, b, high % 1152921504606846976, low, 1, 1, 1) % 17,
        5 => folded(a, b, high % 576460752303423488, low, 7, 12, 10) % 37,
        6 => folded(a, b, high % 288230376151711744, low, 33, 17, 25) % 67,
        7 => folded(a, b, high % 144115188075855872, low, 117, 65, 7) % 131,
        8 => folded(a, b, high % 72057594037927936, low, 1, 1, 1) % 257,
        9 => folded(a, b, high % 36028797018963968, low, 117, 143, 59) % 521,
        10 => folded(a, b, high % 18014398509481984, low, 690, 809, 439) % 1031,
        11 => folded(a, b, high % 9007199254740992, low, 964, 1340, 423) % 2053,
        12 => folded(a, b, high % 4503599627370496, low, 2304, 211, 2462) % 4099,
        13 => folded(a, b, high % 2251799813685248, low, 2078, 150, 7967) % 8209,
        14 => folded(a, b, high % 1125899906842624, low, 11664, 1706, 8652) % 16411,
        15 => folded(a, b, high % 562949953421312, low, 36, 1296, 13885) % 32771,
        _ => folded(a, b, high % 281474976710656, low, 1, 1, 1) % 65537,
    }
}

// A number with the same remainder by p as a * E + b, where c1, c2 and c3 are the remainders of 2^32, 2^64 and 2^96. It
// is below 2^64.
fn folded(a: u32, b: u32, high: u64, low: u64, c1: u64, c2: u64, c3: u64) -> u64
    requires { (a ≤ 65536) × (b ≤ 65536) × (c1 + c2 + c3 ≤ 22022) }
    ensures { result ≡ a * (low % 2 ^ 32 + low / 2 ^ 32 * c1 + high % 2 ^ 32 * c2 + high / 2 ^ 32 * c3) + b }
{
    let sum = low % 4294967296
        + low / 4294967296 * c1
        + high % 4294967296 * c2
        + high / 4294967296 * c3;
    u64::from(a) * sum + u64::from(b)
}
