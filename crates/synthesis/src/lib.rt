// From table to cascade: the table is checked, then the room, the gates are found, and their records written.
#![tactic(auto)]

ghost use Rattle.std.specs.Prelude.{◌≡◌, ◌≤◌, length};
ghost use Rattle.card.specs.Answers.{number_as};
ghost use Rattle.synthesis.specs.Synthesis.{bound, synthesize_answer, synthesize_room};

pub mod laying;
pub mod making;
mod passes;
pub mod settling;

use card::Refusal;

// The bound: so many records the room must take, whatever the table.
fn compute_bound(n: usize) -> usize
    requires { n ≤ 6 }
    ensures { result ≡ bound n }
{
    let size = digits::power(n) as usize;
    n * size - (size - 1) / 2
}

// The cascade of a table, written to the start of the room. The answer is its number of gates, or a refusal 1 to 5.
pub fn synthesize(lines: u8, table: &[u16], room: &mut [u8]) -> Result<usize, Refusal>
    ensures answer { number_as result ≡ synthesize_answer lines table.now (length room.old) }
    ensures room_after { room.new ≡ synthesize_room lines table.now room.old }
{
    let mut inverse = [0u16; 729];
    tables::check_inverting(lines, table, &mut inverse)?;
    let n = lines as usize;
    card::check_room(room.len() / 8, compute_bound(n))?;
    let gates = passes::write_cascade(n, table, &mut inverse[..table.len()], room);
    Ok(gates)
}
