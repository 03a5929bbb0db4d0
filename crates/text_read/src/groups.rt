// Groups that are read: they go into two halves of 64 bits as they come, and none is stored.
ghost use Rattle.std.specs.Prelude.{◌≡◌, ◌+◌, ◌*◌, ◌/◌, ◌%◌, ◌^◌, ◌≤◌, ◌<◌, cond, eqb, Ok, Err};
ghost use Rattle.keys.specs.Key.{key_of};
ghost use Rattle.settings.specs.declared.refusal.Refusal.TheVariants as refusal;
ghost use Rattle.text_read.specs.Gathered.{Gathered, Sized, made, filled_with};

use keys::Key;
use settings::Refusal;
use std::marker::Model;

// The number high * 2^64 + low that the groups stand for, and how many they are: eight at most.
#[derive(Clone, Copy)]
pub(crate) struct Groups {
    high: u64,
    low: u64,
    count: usize,
}

impl Model for Groups {
    ghost use Rattle.std.specs.Prelude.{◌+◌, ◌*◌, ◌/◌, ◌%◌, ◌^◌};
    ghost use Rattle.text_read.specs.Gathered.{Gathered, Sized};

    ghost Value = { Gathered };

    ghost use Rattle.text_read.specs.Halves.{parted_back};

    ghost view = { λ g. record { number = g.high * 2 ^ 64 + g.low; count = g.count } };

    ghost invariant = { λ g. Sized g.high g.low g.count };

    ghost inverse = { λ v. record { high = v.number / 2 ^ 64; low = v.number % 2 ^ 64; count = v.count } };

    ghost inverse_ok = { parted_back };
}

// Before the first group.
pub(crate) const NO_GROUPS: Groups = Groups {
    high: 0,
    low: 0,
    count: 0,
};

// Before the dotted tail of an address under ::ffff:0:0/96: five zero groups, and ffff.
pub(crate) const PREFIX: Groups = Groups {
    high: 0,
    low: 0xffff,
    count: 6,
};

// 65536^n. A product, a quotient or a remainder by it is compiled to a shift or a mask.
fn power(n: usize) -> u64
    requires { n < 4 }
    ensures { result ≡ 65536 ^ n }
{
    1 << (16 * n)
}

// No legal address.
fn refused() -> Result<Key, Refusal>
    ensures { result ≡ Err refusal.Text }
{
    Err(Refusal::Text)
}

// The key of these halves.
fn found(high: u64, low: u64) -> Result<Key, Refusal>
    ensures { result ≡ Ok (record { high = high; low = low }) }
{
    Ok(Key { high, low })
}

impl Groups {
    pub(crate) fn count(self) -> usize
        ensures { result ≡ self.count }
    {
        self.count
    }

    // n groups more, one to three, that stand for the number x: the first n of the low half go over to the high half.
    pub(crate) fn pushed(self, n: usize, x: u64) -> Groups
        requires { (1 ≤ n) × (n ≤ 3) × (self.count + n ≤ 8) × (x < 65536 ^ n) }
        ensures { result ≡ made (self.number * 65536 ^ n + x) (self.count + n) }
    {
        let count = self.count + n;
        let up = power(n);
        let over = power(4 - n);
        Groups {
            high: self.high * up + self.low / over,
            low: self.low % over * up + x,
            count,
        }
    }

    // Eight groups, without "::".
    pub(crate) fn eight(self) -> Result<Key, Refusal>
        ensures { result ≡ cond (eqb self.count 8) (Ok (key_of self.number)) (Err refusal.Text) }
    {
        if self.count == 8 {
            return found(self.high, self.low);
        }
        refused()
    }

    // At most four groups before "::": the high half takes them all. If there are none, zero moves by nothing.
    fn raised(self, tail: Groups) -> Result<Key, Refusal>
        requires { (self.count ≤ 4) × (self.count + tail.count ≤ 7) }
        ensures { result ≡ filled_with self.number self.count tail.number tail.count }
    {
        let Groups { high, low, .. } = tail;
        let up = power((4 - self.count) % 4);
        found(self.low * up + high, low)
    }

    // These groups first, the tail's last, and zero groups between, so that there are eight. Behind five to seven groups
    // the low half has room for the tail's. The shifts are by a variable amount: an arm for each count would be a jump
    // that is badly predicted where texts differ.
    pub(crate) fn filled(self, tail: Groups) -> Result<Key, Refusal>
        ensures { result ≡ filled_with self.number self.count tail.number tail.count }
    {
        if 7 < self.count + tail.count {
            return refused();
        }
        if 4 < self.count {
            return self.pushed(8 - self.count, tail.low).eight();
        }
        self.raised(tail)
    }
}
