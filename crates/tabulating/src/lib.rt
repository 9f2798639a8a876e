// Whole tables: what a cascade makes of every pattern, written into a lent room.
#![tactic(auto)]

ghost use Rattle.std.specs.Prelude.{◌≡◌, length};
ghost use Rattle.card.specs.Answers.{number_as};
ghost use Rattle.tabulating.specs.Tabulating.{tabulate_answer, tabulate_room};

mod planes;
mod shown_entries;
mod untouched;
pub mod whole;

use card::Refusal;

// The table that the cascade computes, into a room for entries, and how many entries it has: refusals 1, 6, 7, 5.
pub fn tabulate(lines: u8, cascade: &[u8], room: &mut [u16]) -> Result<usize, Refusal>
    ensures answer { number_as result ≡ tabulate_answer lines cascade.now (length room.old) }
    ensures room_after { room.new ≡ tabulate_room lines cascade.now room.old }
{
    let m = cascades::check_cascade(lines, cascade)?;
    let size = digits::power(lines as usize) as usize;
    card::check_room(room.len(), size)?;
    whole::write_table(lines, cascade, m, &mut room[..size]);
    Ok(size)
}
