// The lines of all gates of a cascade, one after the other.
ghost use Rattle.std.specs.Prelude.{◌≡◌, ◌≤◌, length};
ghost use Rattle.gates.specs.Inner.Words.{gate_of, GateWord};
ghost use Rattle.cascades.specs.Cascades.{gates_of};
ghost use Rattle.texts.specs.GateTexts.{gate_text, gate_texts};
ghost use Rattle.texts.specs.Inner.StoredTexts.{HasRoom, Wrote};
ghost use Rattle.texts.specs.Inner.Names.{name_in, Printable};

use super::laying::{self, Names};
use super::storing::Writer;
use gates::words;

// The bytes of a gate's line: the name's, three for the target, five for each control, and the newline.
fn size_gate(names: &Names, w: u64) -> usize
    requires { GateWord w }
    ensures { result ≡ length (gate_text (name_in names.now) (gate_of w)) }
{
    let name = names[(w % 256) as usize];
    laying::size_name(name) + 4 + 5 * (words::mark_controls(w) % 255) as usize
}

// The bytes of the lines of all gates.
pub fn size_gate_texts(names: &Names, cascade: &[u8]) -> usize
    requires { Printable cascade.now }
    ensures bytes { result ≡ length (gate_texts (name_in names.now) (gates_of cascade.now)) }
    ensures most { result ≤ 248000 }
{
    let mut size = 0;
    for record in cascade.chunks_exact(8) {
        size += size_gate(names, words::word_at(record, 0));
    }
    size
}

// The lines, each laid out in a buffer that is longer than any, and its text copied to the room.
pub fn write_gate_texts(names: &Names, cascade: &[u8], out: &mut Writer<'_>)
    requires { Printable cascade.now × HasRoom out.old (gate_texts (name_in names.now) (gates_of cascade.now)) }
    ensures { Wrote out.old (gate_texts (name_in names.now) (gates_of cascade.now)) out.new }
{
    let mut line = [0; 48];
    for record in cascade.chunks_exact(8) {
        let end = laying::put_gate(names, words::word_at(record, 0), &mut line);
        out.write_text(&line[..end]);
    }
}
