// The pass over all rows, which finds the gates' words, and the pass that writes them out.
// The first works in arrays of its own, since it uses the table up, and the room may be written only where the cascade will stand.
ghost use Rattle.std.specs.Prelude.{◌≡◌, ◌*◌, ◌≤◌, length};
ghost use Rattle.std.specs.List.{flat_map};
ghost use Rattle.std.proofs.lemmas.List.Edits.{sets};
ghost use Rattle.card.specs.Card.{laid};
ghost use Rattle.gates.specs.Inner.Words.{bytes_in};
ghost use Rattle.cascades.specs.Cascades.{bytes_of};
ghost use Rattle.synthesis.specs.Synthesis.{synthesized};
ghost use Rattle.synthesis.specs.Inner.TableSteps.{TableToSettle, WordsLaid, CascadeRoom};

use crate::laying::GateWords;
use crate::making::PatternNames;
use crate::settling::{Pairing, find_row};

// All rows: the words of the cascade of a table on n lines are laid.
fn find_gates(n: usize, table: &mut Pairing, words: &mut GateWords)
    requires { TableToSettle n table.old.table.now words.old.start }
    ensures { WordsLaid (synthesized n table.old.table.now) words.new.start words.old.start words.old.words.now words.new.words.now }
{
    let names = PatternNames::new(n);
    for i in 0..digits::power(n) {
        find_row(i, &names, table, words);
    }
}

// The records of the words, stored one after the other.
fn write_words(words: &[u64], room: &mut [u8])
    requires { 8 * length words.now ≤ length room.old }
    ensures { room.new ≡ sets room.old 0 (flat_map bytes_in words.now) }
{
    for (j, word) in words.iter().enumerate() {
        gates::words::store(*word, room, 8 * j);
    }
}

// The cascade of a table that comes with its inverse, written to the start of the room. Says how many gates it has.
pub fn write_cascade(n: usize, given: &[u16], inverse: &mut [u16], room: &mut [u8]) -> usize
    requires { CascadeRoom n given.now inverse.old room.old }
    ensures { (result ≡ length (synthesized n given.now)) × (room.new ≡ laid (bytes_of (synthesized n given.now)) room.old) }
{
    let mut entries = [0u16; 729];
    let table = &mut entries[..given.len()];
    table.copy_from_slice(given);
    let mut array = [0u64; 4010];
    let mut words = GateWords::new(&mut array);
    find_gates(n, &mut Pairing::new(table, inverse), &mut words);
    let laid = words.as_slice();
    write_words(laid, room);
    laid.len()
}
