// The text of a listing: how long it is, and its lines stored in a room.
ghost use Rattle.std.specs.Prelude.{◌≡◌, ◌≤◌, length};
ghost use Rattle.cascades.specs.Cascades.{records, gates_of};
ghost use Rattle.cascades.specs.Inner.Checked.{Whole};
ghost use Rattle.texts.specs.Inner.StoredTexts.{HasRoom, Stored, Wrote};
ghost use Rattle.listings.specs.Listings.{head_text, listing_with};

use texts::laying::Names;
use texts::storing::Writer;
use texts::{gate_texts, numbers};

// The name of each operator from 0 on, and how many letters it has. No gate has operator 0.
const NAMES: Names = [
    (*b"  ", 0),
    (*b"C1", 2),
    (*b"C2", 2),
    (*b"N ", 1),
    (*b"D ", 1),
    (*b"E ", 1),
];

// The bytes of the whole listing; the head line's own words have 20.
pub fn size_listing(lines: u8, cascade: &[u8], cost: u32) -> usize
    requires { Whole lines cascade.now (records cascade.now) }
    ensures { result ≡ length (listing_with lines cost (gates_of cascade.now)) }
{
    let n = numbers::size_decimal(lines as usize);
    let m = numbers::size_decimal(cascade.len() / 8);
    let v = numbers::size_decimal(cost as usize);
    20 + n + m + v + gate_texts::size_gate_texts(&NAMES, cascade)
}

// The head line.
fn write_head(lines: u8, gates: usize, cost: u32, out: &mut Writer<'_>)
    requires { HasRoom out.old (head_text lines gates cost) }
    ensures { Wrote out.old (head_text lines gates cost) out.new }
{
    out.write_labelled(b"lines ", lines as usize);
    out.write_labelled(b" gates ", gates);
    out.write_labelled(b" cost ", cost as usize);
    out.write_text(b"\n");
}

// The whole listing, from the start of the room on.
pub fn write_listing(lines: u8, cascade: &[u8], cost: u32, room: &mut [u8]) -> usize
    requires { Whole lines cascade.now (records cascade.now) × (length (listing_with lines cost (gates_of cascade.now)) ≤ length room.old) }
    ensures { Stored room.old 0 (listing_with lines cost (gates_of cascade.now)) room.new result }
{
    let mut out = Writer { room, at: 0 };
    write_head(lines, cascade.len() / 8, cost, &mut out);
    gate_texts::write_gate_texts(&NAMES, cascade, &mut out);
    out.at
}
