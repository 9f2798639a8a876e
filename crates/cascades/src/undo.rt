// The inverse of a cascade, written record by record.
ghost use Rattle.std.specs.Prelude.{◌≡◌, true, ◌+◌, ◌/◌, ◌≤◌, length};
ghost use Rattle.std.proofs.lemmas.List.Edits.{sets};
ghost use Rattle.gates.specs.Gates.{inverse};
ghost use Rattle.gates.specs.Records.{is_record, gate_at, record_of};
ghost use Rattle.cascades.specs.Cascades.{gates_of, bytes_of, undoing};
ghost use Rattle.cascades.specs.Inner.Checked.{Whole};

// The inverse of the gate at one place, to another: the same record but for the operator.
fn copy_inverse(lines: u8, cascade: &[u8], from: usize, room: &mut [u8], to: usize)
    requires { (is_record lines cascade.now from ≡ true) × (from + 8 ≤ length cascade.now) × (to + 8 ≤ length room.old) }
    ensures { room.new ≡ sets room.old to (record_of (inverse (gate_at cascade.now from))) }
{
    let w = gates::words::invert_word(gates::words::word_at(cascade, from));
    gates::words::store(w, room, to);
}

// The inverses of the m gates, the last first, from the start of the room on. What checking has found stays a clause, `Whole`, here and in the functions
// that go on: `tabulating::whole::write_table`, which docs/ARCHITECTURE.md names, takes any bytes that meet it, and a type would ask for the check itself.
pub fn write_undoing(lines: u8, cascade: &[u8], m: usize, room: &mut [u8])
    requires whole { Whole lines cascade.now m }
    requires m_in_bounds { m ≤ length room.old / 8 }
    ensures { room.new ≡ sets room.old 0 (bytes_of (undoing (gates_of cascade.now))) }
{
    for i in 0..m {
        copy_inverse(lines, cascade, 8 * (m - (i + 1)), room, 8 * i);
    }
}
