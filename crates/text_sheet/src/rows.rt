// The lines of a page.
ghost use Rattle.std.specs.Prelude.{◌≤◌, length, take};
ghost use Rattle.table_cursor.specs.Ahead.{ahead};
ghost use Rattle.text_sheet.specs.Steps.{Ready, Lines};

use crate::row::{ROW_BYTES, put_heading, put_row};
use keys::Place;
use settings::{Layout, Settings};
use table_cursor::{Cursor, next};

const ROWS_MAX: usize = 40;

// The heading, and up to 40 rows of the records ahead of the cursor; the number of bytes.
pub(crate) fn put_page(s: Settings, t: &[u8], g: Layout, cursor: Cursor, out: &mut [u8]) -> usize
    requires { Ready s g t.now cursor × (2091 ≤ length out.old) }
    ensures { Lines (take 40 (ahead s t.now cursor)) out.old out.new result }
{
    put_heading(out);
    let mut c = cursor;
    // `end` goes along, since it is the answer too.
    let mut end = ROW_BYTES;
    for _n in 0..ROWS_MAX {
        let Some(r) = next(t, g, c) else {
            break;
        };
        let place = Place {
            list: r.list,
            entry: r.entry,
        };
        put_row(&mut out[end..], place.key(s), r.label);
        c = r.cursor;
        end += ROW_BYTES;
    }
    end
}
