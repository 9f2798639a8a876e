// Two cascades compared: their tables entry by entry, and then cost and length.
ghost use Rattle.std.specs.Prelude.{◌≡◌, ◌&&◌, ◌||◌, not, ◌^◌, eqb, ltb, position, zip};
ghost use Rattle.cascades.specs.Cascades.{records, gates_of};
ghost use Rattle.cascades.specs.Inner.Checked.{Whole};
ghost use Rattle.ranges.specs.Inner.Places.{found_at};
ghost use Rattle.choice.specs.Choice.{first_difference};
ghost use Rattle.choice.specs.Inner.Comparing.{TwoTables};

// The first index at which two tables differ.
fn first_unlike(one: &[u16], two: &[u16]) -> Option<usize>
    ensures { result ≡ position (λ z. not (eqb z.0 z.1)) (zip one.now two.now) }
{
    one.iter().zip(two).position(|(x, y)| x != y)
}

// The first input on which two cascades that were checked differ: their tables are written into lent rooms. With the rooms made here, one function would
// have the goals of both.
fn difference_in(
    lines: u8,
    first: &[u8],
    second: &[u8],
    one: &mut [u16],
    two: &mut [u16],
) -> Option<usize>
    requires { TwoTables lines first.now second.now one.old two.old }
    ensures { result ≡ found_at (3 ^ lines) (first_difference lines (gates_of first.now) (gates_of second.now)) }
{
    tabulating::whole::write_table(lines, first, first.len() / 8, one);
    tabulating::whole::write_table(lines, second, second.len() / 8, two);
    first_unlike(one, two)
}

// The same, with room for two tables of six lines.
pub fn first_difference(lines: u8, first: &[u8], second: &[u8]) -> Option<usize>
    requires first_whole { Whole lines first.now (records first.now) }
    requires second_whole { Whole lines second.now (records second.now) }
    ensures { result ≡ found_at (3 ^ lines) (first_difference lines (gates_of first.now) (gates_of second.now)) }
{
    let size = digits::power(lines as usize) as usize;
    let mut one = [0; 729];
    let mut two = [0; 729];
    difference_in(lines, first, second, &mut one[..size], &mut two[..size])
}

// The second costs less, or the same with fewer gates.
pub fn second_wins(one: u32, two: u32, m: usize, k: usize) -> bool
    ensures { result ≡ (ltb two one || eqb two one && ltb k m) }
{
    (two, k) < (one, m)
}
