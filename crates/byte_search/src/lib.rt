// The search of the first byte that a test is true of, in steps of sixteen and of four bytes.
#![tactic(auto)]

ghost use Rattle.std.specs.Prelude.{◌≡◌, true, Bool, ℕ, ◌+◌, ◌≤◌, ◌<◌, length};
ghost use Rattle.byte_search.specs.First.{Says, first_from};

// Whether the test is true of none of the N bytes from i on. It has no jump: LLVM makes one vector
// comparison of it, where it can make one of the test.
fn none_of<const N: usize, F: Fn(u8) -> bool>(s: &[u8], i: usize, test: &F) -> bool
    requires callable { F.IsAlwaysCallable test.now }
    requires within { i + N ≤ length s.now }
    ensures { result ≡ true → (p : ℕ → Bool) → Says (F.post test.now) p → first_from p s.now i ≡ first_from p s.now (i + N) }
{
    let mut none = true;
    for k in 0..N {
        none &= !test(s[i + k]);
    }
    none
}

// A place that the first byte at `at` or after it does not precede, N bytes a step. A `while`: it ends within the bytes.
fn skip<const N: usize, F: Fn(u8) -> bool>(s: &[u8], at: usize, test: &F) -> usize
    requires callable { F.IsAlwaysCallable test.now }
    requires steps { 0 < N }
    requires within { at ≤ length s.now }
    ensures passed { (p : ℕ → Bool) → Says (F.post test.now) p → first_from p s.now result ≡ first_from p s.now at }
    ensures within { result ≤ length s.now }
{
    let mut i = at;
    while N <= s.len() - i && none_of::<N, F>(s, i, test) {
        i += N;
    }
    i
}

// The place of the first byte at `at` or after it of which the test is true, or the slice's length where there is none, which
// callers take for a length; `at` where that is past the end. Steps of sixteen, of four and of one: a test of each byte would be a jump that is badly
// predicted.
pub fn first<F: Fn(u8) -> bool>(s: &[u8], at: usize, test: F) -> usize
    requires { F.IsAlwaysCallable test }
    ensures { (p : ℕ → Bool) → Says (F.post test) p → result ≡ first_from p s.now at }
{
    if at >= s.len() {
        return at;
    }
    let i = skip::<4, F>(s, skip::<16, F>(s, at, &test), &test);
    // By the place, which is the answer.
    for k in i..s.len() {
        if test(s[k]) {
            return k;
        }
    }
    s.len()
}
