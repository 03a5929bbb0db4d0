// Looking for a number among slots by a window of their bits, which one load has whole. A slot with another window does
// not hold the number; the first slot with the same window, and those behind it, are for the caller to compare whole.
ghost use Rattle.std.specs.Prelude.{ℕ, ◌+◌, ◌*◌, ◌/◌, ◌%◌, ◌^◌, ◌≤◌, ◌<◌, length};
ghost use Rattle.table_read.specs.Rows.{Row, Unlike, Passed};

// Up to so many slots are looked at without a branch on the data.
pub const FEW: usize = 10;

// The three functions below take the same four parameters one by one: a struct of them would be made at each of the four calls
// in `candidate`, and only taken apart again.

// The first of n slots whose window is the one that is sought, where that of slot k begins at place at + k * step; n if none
// is. It goes from the last slot to the first and never leaves early, so that the choice of r is a conditional move: with few
// slots no branch depends on the data. The place goes down by itself: tried, with at + j * step in the loop LLVM multiplies
// twice more before it.
fn first<F: Fn(usize) -> bool>(at: usize, step: usize, n: usize, is_sought: F) -> usize
    requires { ((k : ℕ) → k < n → F.pre is_sought (at + k * step)) × (at + n * step ≤ 2 ^ 28) }
    ensures { Passed (F.post is_sought) at step n result }
{
    let mut r = n;
    let mut p = at + n * step;
    for j in (0..n).rev() {
        p -= step;
        if is_sought(p) {
            r = j;
        }
    }
    r
}

// The same, for many slots: it stops at the first.
fn next<F: Fn(usize) -> bool>(at: usize, step: usize, n: usize, is_sought: F) -> usize
    requires { ((k : ℕ) → k < n → F.pre is_sought (at + k * step)) × (at + n * step ≤ 2 ^ 28) }
    ensures { Passed (F.post is_sought) at step n result }
{
    for j in 0..n {
        if is_sought(at + j * step) {
            return j;
        }
    }
    n
}

// The first slot with the window: of few slots without a branch on the data, of many by stopping there.
fn first_or_next<F: Fn(usize) -> bool>(at: usize, step: usize, n: usize, is_sought: F) -> usize
    requires { ((k : ℕ) → k < n → F.pre is_sought (at + k * step)) × (at + n * step ≤ 2 ^ 28) }
    ensures { Passed (F.post is_sought) at step n result }
{
    if n <= FEW {
        return first(at, step, n, is_sought);
    }
    next(at, step, n, is_sought)
}

// A slot before which none of the n slots holds the number high * 2^64 + low, so that the search goes on there. Where a
// slot has whole bytes the window begins at its first byte boundary; elsewhere it ends with the entry. The 57 is written
// at the call, so that the shifts are by constants. 0, which says nothing, where a load could pass the table's end.
// Left free: which slot it is, since a window is a part of a slot, and which part depends on where the slots lie. What
// holds: it is at most n, and no slot before it holds the number; so n says that none does. Callers compare the slots from
// there on whole (`confirm`, `scan_from`), and their contracts say which is the first.
pub fn candidate(
    t: &[u8],
    start: usize,
    n: usize,
    slot: usize,
    bie: usize,
    high: u64,
    low: u64,
) -> usize
    requires { Row t.now start slot bie n × (high * 2 ^ 64 + low < 2 ^ bie) }
    ensures { Unlike t.now start slot bie (high * 2 ^ 64 + low) n result }
{
    if slot % 8 == 0 {
        let i = (start + 7) / 8;
        let o = 8 * i - start;
        if o + 64 <= bie {
            let q = bits::swap_bytes(bits::part_of_two(high, low, bie - o - 64));
            return first_or_next(i, slot / 8, n, |p| bits::word_is(t, p, q));
        }
        if o + 32 <= bie {
            let q = bits::swap_bytes(bits::part_of_two(high, low, bie - o - 32)) / 4294967296;
            return next(i, slot / 8, n, |p| bits::four_is(t, p, q));
        }
    }
    if (start + n * slot) / 8 + 8 > t.len() {
        return 0;
    }
    if bie >= 57 {
        let q = low % 144115188075855872;
        return first_or_next(
            start + (bie - 57),
            slot,
            n,
            |at| bits::get_inner(t, at, 57) == q,
        );
    }
    first_or_next(start, slot, n, |at| bits::get_inner(t, at, bie) == low)
}
