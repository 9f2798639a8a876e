// Tables of patterns: which of them are accepted, and the inverse of one that is.
#![tactic(auto)]

ghost use Rattle.std.specs.Prelude.{◌≡◌, [], ◌^◌, ◌≤◌, length, take};
ghost use Rattle.card.specs.Card.{Answer.accepted};
ghost use Rattle.card.specs.Answers.{done_as};
ghost use Rattle.tables.specs.Tables.{on_table, check_table_answer};
ghost use Rattle.tables.specs.Inner.Inverses.{Inverted};

mod entries;

use card::Refusal;

// Refusals 2, 3 and 4 of a table for so many patterns: 3 looks through all of the table before 4 does. Where the table is accepted, its inverse stands in
// the lent array.
pub fn check_entries(patterns: u16, table: &[u16], inverse: &mut [u16]) -> Result<(), Refusal>
    requires { (patterns ≤ 729) × (length inverse.old ≡ 729) }
    ensures answer { done_as result ≡ on_table patterns table.now (accepted []) }
    ensures inverted { done_as result ≡ accepted [] → Inverted patterns table.now (take patterns inverse.new) }
{
    if table.len() != patterns as usize {
        return Err(Refusal::TableLength);
    }
    if let Some(row) = entries::first_large(patterns, table) {
        return Err(Refusal::LargeEntry(row));
    }
    if let Some(row) = entries::invert_entries(table, inverse) {
        return Err(Refusal::RepeatedEntry(row));
    }
    Ok(())
}

// Refusals 1, 2, 3 and 4 of a table on so many lines, and its inverse.
pub fn check_inverting(lines: u8, table: &[u16], inverse: &mut [u16]) -> Result<(), Refusal>
    requires { length inverse.old ≡ 729 }
    ensures answer { done_as result ≡ check_table_answer lines table.now }
    ensures inverted { done_as result ≡ accepted [] → Inverted (3 ^ lines) table.now (take (3 ^ lines) inverse.new) }
{
    card::check_lines(lines)?;
    check_entries(digits::power(lines as usize), table, inverse)
}

// Refusals 1, 2, 3 and 4 of a table.
pub fn check_table(lines: u8, table: &[u16]) -> Result<(), Refusal>
    ensures { done_as result ≡ check_table_answer lines table.now }
{
    check_inverting(lines, table, &mut [0u16; 729])
}
