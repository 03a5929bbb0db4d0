// The settings of a table, and the rules that they keep.
ghost use Rattle.std.specs.Prelude.{◌≡◌, ◌^◌, ◌≤◌, ◌&&◌, nat_le, nat_lt};
ghost use Rattle.settings.specs.Prime.{prime_above};
ghost use Rattle.settings.specs.Legal.{Ranges, in_ranges, fits, below_prime};
ghost use Rattle.settings.specs.Layout.{layout_of};
ghost use Rattle.settings.specs.Made.{made_of, size_of, laid_of};

use crate::layout::Layout;
use crate::refusal::Refusal;

// The number of lists, 2^bii, and p, the smallest prime above it.
#[derive(Clone, Copy)]
pub struct Lists(pub usize, pub u32);

// A match is compiled to a table that is there once, where a constant array would be built anew at each use. No bii has
// the last arm; if it were the arm of 16, a test would stand before the table.
pub(crate) fn lists_of(bii: u32) -> Lists
    requires { bii ≤ 16 }
    ensures { (result.0 ≡ 2 ^ bii) × (result.1 ≡ prime_above bii) }
{
    match bii {
        0 => Lists(1, 2),
        1 => Lists(2, 3),
        2 => Lists(4, 5),
        3 => Lists(8, 11),
        4 => Lists(16, 17),
        5 => Lists(32, 37),
        6 => Lists(64, 67),
        7 => Lists(128, 131),
        8 => Lists(256, 257),
        9 => Lists(512, 521),
        10 => Lists(1024, 1031),
        11 => Lists(2048, 2053),
        12 => Lists(4096, 4099),
        13 => Lists(8192, 8209),
        14 => Lists(16384, 16411),
        15 => Lists(32768, 32771),
        16 => Lists(65536, 65537),
        _ => Lists(0, 1),
    }
}

// Whether 1 ≤ x < p, in one comparison: 0 wraps to the largest number.
fn below(x: u32, p: u32) -> bool
    requires { 1 ≤ p }
    ensures { result ≡ (nat_le 1 x && nat_lt x p) }
{
    std::num::wrapping_sub_u32(x, 1) < p - 1
}

fn between(low: u32, x: u32, high: u32) -> bool
    ensures { result ≡ (nat_le low x && nat_le x high) }
{
    (low <= x) & (x <= high)
}

// Laid out as C lays it out, since C callers hand it over as it is: so no type can hold that they are legal, and what stands
// behind the tests asks it (`Ranges`, `Legal`).
#[repr(C)]
#[derive(Clone, Copy)]
pub struct Settings {
    pub w: u32,
    pub bii: u32,
    pub sib: u32,
    pub nob: u32,
    pub sio: u32,
    pub val: u32,
    pub a: u32,
    pub b: u32,
}

impl Settings {
    pub const W_MIN: u32 = 2;

    pub const W_MAX: u32 = 128;

    pub const BII_MAX: u32 = 16;

    pub const SIB_MIN: u32 = 1;

    pub const SIB_MAX: u32 = 255;

    pub const NOB_MAX: u32 = 65535;

    pub const SIO_MIN: u32 = 1;

    pub const SIO_MAX: u32 = 15;

    pub const VAL_MAX: u32 = 32;

    pub const BYTES_MAX: usize = 16777216;

    // Settings, if they are legal.
    pub fn new(
        w: u32,
        bii: u32,
        sib: u32,
        nob: u32,
        sio: u32,
        val: u32,
        a: u32,
        b: u32,
    ) -> Result<Settings, Refusal>
        ensures { result ≡ made_of (record { w = w; bii = bii; sib = sib; nob = nob; sio = sio; val = val; a = a; b = b }) }
    {
        let s = Settings {
            w,
            bii,
            sib,
            nob,
            sio,
            val,
            a,
            b,
        };
        s.layout()?;
        Ok(s)
    }

    // The bytes that the table needs.
    pub fn size(self) -> Result<usize, Refusal>
        ensures { result ≡ size_of self }
    {
        let g = self.layout()?;
        Ok(g.bytes)
    }

    // The layout of the table's bits, if the settings are legal. Every call on a table starts with it.
    pub fn layout(self) -> Result<Layout, Refusal>
        ensures { result ≡ laid_of self }
    {
        if !self.in_ranges() {
            return Err(Refusal::Settings);
        }
        if !self.below_prime() {
            return Err(Refusal::Settings);
        }
        let g = Layout::of(self);
        if !self.keeps_rules(g) {
            return Err(Refusal::Settings);
        }
        Ok(g)
    }

    // The group at the end is for speed: with one comparison alone as its last part the whole would be compiled without
    // jumps.
    fn in_ranges(self) -> bool
        ensures { result ≡ in_ranges self }
    {
        between(Settings::W_MIN, self.w, Settings::W_MAX)
            & (self.bii <= Settings::BII_MAX)
            & (self.bii < self.w)
            & between(Settings::SIB_MIN, self.sib, Settings::SIB_MAX)
            & (self.nob <= Settings::NOB_MAX)
            & (between(Settings::SIO_MIN, self.sio, Settings::SIO_MAX)
                & (self.val <= Settings::VAL_MAX))
    }

    fn below_prime(self) -> bool
        requires { self.bii ≤ 16 }
        ensures { result ≡ below_prime self }
    {
        let p = lists_of(self.bii).1;
        below(self.a, p) & below(self.b, p)
    }

    fn keeps_rules(self, g: Layout) -> bool
        requires { (Ranges self) × (g ≡ layout_of self) }
        ensures { result ≡ fits self }
    {
        (g.link <= g.basic.bits - g.basic.counter) & (g.bytes <= Settings::BYTES_MAX)
    }
}
