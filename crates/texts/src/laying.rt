// The line of a gate, laid out in a buffer of its own by whole words. A word is stored in full, however short its text is: what is too much is
// written over by what follows, so that nothing depends on which controls there are. Storing only what there is takes twice the time.
ghost use Rattle.std.specs.Prelude.{◌≡◌, ◌++◌, ◌/◌, ◌%◌, ◌≤◌, length};
ghost use Rattle.std.proofs.lemmas.List.Edits.{sets};
ghost use Rattle.ranges.specs.Ranges.{span};
ghost use Rattle.gates.specs.Inner.Words.{bytes_in, gate_of, GateWord};
ghost use Rattle.texts.specs.Texts.{joined};
ghost use Rattle.texts.specs.GateTexts.{line_text, control_text, gate_text};
ghost use Rattle.texts.specs.Inner.StoredTexts.{Appended};
ghost use Rattle.texts.specs.Inner.Names.{name_of, spaced, name_in};

// The name of an operator: two bytes, and how many of them, from the first on, are its letters; a number above 2 counts as 2.
pub type Name = ([u8; 2], u8);

// The name of each operator from 0 on. No gate has operator 0.
pub type Names = [Name; 6];

// How many letters a name has. A slice for each name would need no number, but copying so few bytes takes a call.
pub fn size_name(name: Name) -> usize
    ensures { (result ≡ length (name_of name)) × (result ≤ 2) }
{
    usize::from(name.1.min(2))
}

// The same of a name of two bytes where a space is no letter.
pub fn count_letters(name: [u8; 2]) -> usize
    ensures { (result ≡ length (name_of (spaced name))) × (result ≤ 2) }
{
    let letters = u8::from(name[0] != b' ') + u8::from(name[1] != b' ');
    size_name((name, letters))
}

// The 8 bytes of a word, its lowest byte first.
fn put_word(word: u64, line: &mut [u8; 48], at: usize)
    requires { at ≤ 40 }
    ensures { line.new ≡ sets line.old at (bytes_in word) }
{
    line[at..at + 8].copy_from_slice(&word.to_le_bytes());
}

// The operator and the target. The word is ` x0` from the lowest byte up (20, 78, 30), with the target added to the digit.
fn put_operator(names: &Names, w: u64, line: &mut [u8; 48]) -> usize
    requires { GateWord w }
    ensures { Appended line.old 0 (name_in names.now (w % 256) ++ line_text (w / 256 % 256)) line.new result × (result ≤ 5) }
{
    let name = names[(w % 256) as usize];
    line[0] = name.0[0];
    line[1] = name.0[1];
    let named = size_name(name);
    put_word(0x0030_7820 + 0x0001_0000 * (w / 256 % 256), line, named);
    named + 3
}

// The controls, in rising line order. A word is ` x0=0` from the lowest byte up (20, 78, 30, 3d, 30), with the line and the value added to the
// digits; where there is no control, which is the value 3, the next one is stored at the same place.
fn put_controls(w: u64, line: &mut [u8; 48], at: usize) -> usize
    requires { GateWord w × (at ≤ 5) }
    ensures { Appended line.old at (joined (span (control_text (gate_of w)) 0 6)) line.new result × (result ≤ 35) }
{
    let mut rest = w / 0x0001_0000;
    let mut to = at;
    for k in 0..6 {
        let c = rest % 256;
        let control = 0x0030_3d30_7820 + 0x0001_0000 * k + 0x0001_0000_0000 * c;
        put_word(control, line, to);
        to += (5 - 5 * (c / 3)) as usize;
        rest /= 256;
    }
    to
}

// The line of the gate that a word writes down, from the start of the buffer on.
pub fn put_gate(names: &Names, w: u64, line: &mut [u8; 48]) -> usize
    requires { GateWord w }
    ensures { Appended line.old 0 (gate_text (name_in names.now) (gate_of w)) line.new result × (result ≤ 36) }
{
    let aimed = put_operator(names, w, line);
    let done = put_controls(w, line, aimed);
    line[done] = b'\n';
    done + 1
}

#[cfg(test)]
mod tests {
    use super::*;

    #[test]
    fn spaces_are_no_letters(rt: HostRuntime) {
        for (name, letters) in [(*b"C1", 2), (*b"N ", 1), (*b" A", 1), (*b"  ", 0)] {
            assert_eq!(rt; count_letters(name), letters);
        }
    }
}
