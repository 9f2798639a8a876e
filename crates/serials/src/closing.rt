// The end of a text.
ghost use Rattle.std.specs.Prelude.{◌≡◌, ◌≤◌, ◌<◌, length};
ghost use Rattle.card.specs.Card.{on_lines, after, laid};
ghost use Rattle.serials.specs.Serials.{serial, stopped_by, ended, ended_table};
ghost use Rattle.serials.specs.SerialTexts.{entries_answer};

use crate::{Scan, scanning};

// The numbers go to the start of the table.
#[tactic(auto, unfolding(card::specs::Card::laid))]
fn lay(numbers: &[u16], table: &mut [u16])
    requires { length numbers.now ≤ length table.old }
    ensures { table.new ≡ laid numbers.now table.old }
{
    table[..numbers.len()].copy_from_slice(numbers);
}

// What is answered of the numbers stands, and they are laid into the table where they are accepted.
fn settle(s: Scan, numbers: &[u16], table: &mut [u16]) -> Scan
    requires { (length numbers.now ≡ s.count) × (s.count < 65536) }
    ensures value { result ≡ stopped_by s (on_lines s.lines (entries_answer s.lines numbers.now (length table.old))) }
    ensures table_after { table.new ≡ after (on_lines s.lines (entries_answer s.lines numbers.now (length table.old))) (laid numbers.now table.old) table.old }
{
    match tables::check_table(s.lines, numbers) {
        Err(refusal) => scanning::stop(s, refusal.number(), refusal.place() as u16),
        Ok(()) => {
            if table.len() < numbers.len() {
                return scanning::stop(s, 5, s.count);
            }
            lay(numbers, table);
            scanning::stop(s, 0, 0)
        }
    }
}

pub fn close(s: Scan, entries: &[u16], table: &mut [u16]) -> Scan
    ensures value { result ≡ (ended (serial s entries.now) (length table.old)).scan }
    ensures table_after { table.new ≡ ended_table (serial s entries.now) table.old }
{
    if s.over != 0 {
        return s;
    }
    if s.last != b'\n' {
        return scanning::stop(s, 14, s.at);
    }
    let m = s.count as usize;
    if entries.len() < m {
        return scanning::stop(s, 2, 0);
    }
    settle(s, &entries[..m], table)
}
