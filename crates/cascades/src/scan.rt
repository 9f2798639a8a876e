// The search for a record that is no gate.
ghost use Rattle.std.specs.Prelude.{◌≡◌, true};
ghost use Rattle.ranges.specs.Inner.Places.{found_at};
ghost use Rattle.card.specs.Card.{lines_ok};
ghost use Rattle.gates.specs.Records.{is_record};
ghost use Rattle.cascades.specs.Cascades.{records};
ghost use Rattle.cascades.specs.Answers.{first_bad};

// The first record that is no gate on so many lines.
pub fn first_bad(lines: u8, cascade: &[u8]) -> Option<usize>
    requires { lines_ok lines ≡ true }
    ensures { result ≡ found_at (records cascade.now) (first_bad is_record lines cascade.now) }
{
    for i in 0..cascade.len() / 8 {
        if !gates::words::is_gate(lines, gates::words::word_at(cascade, 8 * i)) {
            return Some(i);
        }
    }
    None
}
