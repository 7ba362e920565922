// Cells of 80 bytes, counted from 1: the log's records, and the sessions.
ghost use Rattle.std.specs.Prelude.{◌≡◌, ◌+◌, ◌*◌, ◌-◌, ◌<◌, ◌≤◌, length};
ghost use Rattle.carts.specs.Bytes.{part, over, u16_bytes};
ghost use Rattle.edit_log.specs.Log.{record_size};

use crate::record::Record;
use carts::bytes;

// A cell becomes x, with v as the u16 at an index. Of exactly 80 bytes: else the copy is a call of C's memmove, which the archive is to need
// no more than it did.
fn store(dst: &mut [u8], x: &[u8], at: usize, v: u32)
    requires lengths { (length dst.old ≡ record_size) × (length x.now ≡ record_size) }
    requires value { (at + 2 ≤ record_size) × (v < 65536) }
    ensures { dst.new ≡ over x.now at 2 (u16_bytes v) }
{
    dst.copy_from_slice(&x[..Record::SIZE]);
    bytes::put_u16(dst, at, v);
}

// Cell i becomes x, with v as the u16 at an index.
pub fn fill(cells: &mut [u8], i: u32, x: &[u8], at: usize, v: u32)
    requires cell { ((1 ≤ i) × (record_size * i ≤ length cells.old)) × (length x.now ≡ record_size) }
    requires value { (at + 2 ≤ record_size) × (v < 65536) }
    ensures { cells.new ≡ over cells.old (record_size * (i - 1)) record_size (over x.now at 2 (u16_bytes v)) }
{
    let start = Record::SIZE * (i as usize - 1);
    let end = start + Record::SIZE;
    store(&mut cells[start..end], x, at, v);
}

// The u16 at an index of cell i becomes v.
pub fn put(cells: &mut [u8], i: u32, at: usize, v: u32)
    requires cell { (1 ≤ i) × (record_size * i ≤ length cells.old) }
    requires value { (at + 2 ≤ record_size) × (v < 65536) }
    ensures { cells.new ≡ over cells.old (record_size * (i - 1)) record_size (over (part cells.old (record_size * (i - 1)) record_size) at 2 (u16_bytes v)) }
{
    let start = Record::SIZE * (i as usize - 1);
    let end = start + Record::SIZE;
    bytes::put_u16(&mut cells[start..end], at, v);
}
