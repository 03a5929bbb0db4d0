// One pass over the counters: how many records there are, and in which list a record stands. No slot is read.
ghost use Rattle.std.specs.Prelude.{◌≡◌, ◌<◌};
ghost use Rattle.table.specs.Decode.{decode};
ghost use Rattle.table.specs.Table.{Table};
ghost use Rattle.table.specs.Follow.{follow, own_blocks, content};
ghost use Rattle.table_cursor.specs.Survey.{blocks_length, list_length, Surveys};

use crate::places::Survey;
use crate::walk::at;
use keys::{BlockNumber, ListNumber};
use settings::Layout;
use table::{Damage, Step};
use table_read::blocks::{basic_counter, basic_head, owned_front, step_of};

// How many entries the overflow blocks of list i have, from `first` on; each must have the list's number, and the last an end.
fn blocks_length(t: &[u8], g: Layout, i: ListNumber, first: BlockNumber) -> Result<usize, Damage>
    requires { Table g t.now }
    ensures { result ≡ blocks_length g (decode g t.now).overflow (own_blocks i.0 (decode g t.now).overflow (follow g g.nob (decode g t.now).overflow first.0)) }
{
    let mut b = first;
    let mut n: usize = 0;
    for _k in 0..g.nob {
        if b.0 >= g.nob {
            return Err(Damage);
        }
        let fields = owned_front(t, g, b);
        if fields.owner != i {
            return Err(Damage);
        }
        let last = fields.front.counter;
        match step_of(fields.front, g.sio) {
            Step::Last => return Ok(n + last + 1),
            Step::Further(next) => b = next,
            Step::Damage => return Err(Damage),
        }
        n += g.sio;
    }
    Err(Damage)
}

// How many entries list i has: it is followed to its end.
fn list_length(t: &[u8], g: Layout, i: ListNumber) -> Result<usize, Damage>
    requires { Table g t.now × (i.0 < g.lists) }
    ensures { result ≡ list_length (content g (decode g t.now) i.0) }
{
    let c = basic_counter(t, g, i);
    if c <= g.sib {
        return Ok(c);
    }
    if c > g.sib + 1 {
        return Err(Damage);
    }
    let n = blocks_length(t, g, i, BlockNumber(basic_head(t, g, i)))?;
    Ok(g.sib + n)
}

// How many records there are, every list followed to its end, and the cursor before record n.
pub fn survey(t: &[u8], g: Layout, n: u64) -> Result<Survey, Damage>
    requires { Table g t.now }
    ensures { Surveys g t.now n result }
{
    let mut count: u64 = 0;
    let mut list: usize = 0;
    let mut skip: usize = 0;
    for i in 0..g.lists as usize {
        let k = list_length(t, g, ListNumber(i))?;
        let more = count + k as u64;
        if (count <= n) & (n < more) {
            list = i;
            skip = (n - count) as usize;
        }
        count = more;
    }
    Ok(Survey {
        count,
        cursor: at(t, g, ListNumber(list), skip),
    })
}
