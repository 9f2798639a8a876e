// The lines of a cascade's gates, stored in a room.
ghost use Rattle.std.specs.Prelude.{◌≤◌, length};
ghost use Rattle.cascades.specs.Cascades.{gates_of};
ghost use Rattle.texts.specs.GateTexts.{gate_texts};
ghost use Rattle.texts.specs.Inner.StoredTexts.{Stored};
ghost use Rattle.texts.specs.Inner.Names.{Printable};
ghost use Rattle.names.specs.Names.{other_name};

use texts::gate_texts;
use texts::storing::Writer;

// From the start of the room on.
pub fn write_lines(cascade: &[u8], room: &mut [u8]) -> usize
    requires { Printable cascade.now × (length (gate_texts other_name (gates_of cascade.now)) ≤ length room.old) }
    ensures { Stored room.old 0 (gate_texts other_name (gates_of cascade.now)) room.new result }
{
    let mut out = Writer { room, at: 0 };
    gate_texts::write_gate_texts(&crate::NAMES, cascade, &mut out);
    out.at
}
