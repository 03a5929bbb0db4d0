// The call: its refusals in their order, and the page.
ghost use Rattle.std.specs.Prelude.{◌≡◌, ◌≤◌, ◌<◌, ◌-◌, ◌*◌, ◌^◌, length};
ghost use Rattle.std.specs.Option.{SomeIff};
ghost use Rattle.settings.specs.Reply.{Gives};
ghost use Rattle.settings.specs.Layout.{layout_of};
ghost use Rattle.settings.specs.Legal.{Legal};
ghost use Rattle.table.specs.Table.{Table};
ghost use Rattle.text_sheet.specs.Answers.{page_call};
ghost use Rattle.text_sheet.specs.Steps.{page_after};

use crate::rows::put_page;
use settings::{Layout, Refusal, Settings};
use table_cursor::{Survey, survey};

// The heading and 40 rows.
const PAGE_BYTES: usize = 2091;

// The number of a page's first record, from 0. Page 0 has none, nor has a page so far on that the number has more than 64 bits.
fn first_record(page: u64) -> Option<u64>
    ensures { SomeIff result ((1 ≤ page) × ((page - 1) * 40 < 2 ^ 64)) ((page - 1) * 40) }
{
    page.checked_sub(1)?.checked_mul(40)
}

// Refusals 7 and 13, and the page. Nothing is stored before both are settled; 7 comes first, so that the table of a page that
// is none is surveyed too.
fn surveyed(s: Settings, t: &[u8], g: Layout, page: u64, out: &mut [u8]) -> Result<usize, Refusal>
    requires { Legal s × (layout_of s ≡ g) × Table g t.now × (2091 ≤ length out.old) }
    ensures { Gives (page_after s t.now page out.old) result out.new }
{
    let first = first_record(page);
    let Survey { count, cursor } = survey(t, g, first.unwrap_or(0))?;
    let Some(n) = first else {
        return Err(Refusal::Page);
    };
    if (0 < n) & (count <= n) {
        return Err(Refusal::Page);
    }
    Ok(put_page(s, t, g, cursor, out))
}

// Page `page` of the table, into the lent bytes.
pub fn page(s: Settings, t: &[u8], page: u64, out: &mut [u8]) -> Result<usize, Refusal>
    ensures { Gives (page_call s t.now page out.old) result out.new }
{
    let g = s.layout()?;
    if t.len() < g.bytes {
        return Err(Refusal::Short);
    }
    if s.w != 128 {
        return Err(Refusal::Width);
    }
    if out.len() < PAGE_BYTES {
        return Err(Refusal::Output);
    }
    surveyed(s, t, g, page, out)
}
