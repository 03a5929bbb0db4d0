// A new table in lent bytes: zeros, and the free blocks in one chain.
#![tactic(auto)]

ghost use Rattle.std.specs.Prelude.{◌≡◌, ◌<◌};
ghost use Rattle.table.specs.Table.{Table};
ghost use Rattle.table.specs.New.{new_overflow};
ghost use Rattle.table_make.specs.NewSteps.{linked};
ghost use Rattle.settings.specs.Reply.{Gives};
ghost use Rattle.table.specs.Calls.{make_call};

use bits::zero_bytes;
use keys::BlockNumber;
use settings::{Layout, Refusal, Settings};
use table_store::put_overflow_link;

// The table in the lent bytes becomes a new one; bytes beyond its size stay.
pub fn make(s: Settings, t: &mut [u8]) -> Result<(), Refusal>
    ensures { Gives (make_call s t.old) result t.new }
{
    let g = s.layout()?;
    let n = g.bytes;
    if t.len() < n {
        return Err(Refusal::Short);
    }
    zero_bytes(&mut t[..n]);
    link_free(t, g);
    Ok(())
}

// Every overflow block becomes a link of the free chain 0, 1, .. nob - 1.
fn link_free(t: &mut [u8], g: Layout)
    requires { Table g t.old }
    ensures { t.new ≡ linked g g.nob t.old }
{
    for j in 0..g.nob {
        let link = free_link(g, BlockNumber(j));
        put_overflow_link(t, g, BlockNumber(j), link.0);
    }
}

// The link of block j in the chain: the last free block links to itself.
fn free_link(g: Layout, j: BlockNumber) -> BlockNumber
    requires { j.0 < g.nob }
    ensures { result.0 ≡ (new_overflow g j.0).link }
{
    let next = j.0 + 1;
    if next == g.nob {
        return j;
    }
    BlockNumber(next)
}
