// Passes over the entries of a table, one each.
ghost use Rattle.std.specs.Prelude.{◌≡◌, ℕ, ◌≤◌, ◌<◌, length, get_or, leb, position};
ghost use Rattle.ranges.specs.Inner.Places.{found_at};
ghost use Rattle.tables.specs.Tables.{first_repeated};
ghost use Rattle.tables.specs.Inner.Inverses.{Back};

// The first entry that is none of so many patterns.
pub fn first_large(patterns: u16, table: &[u16]) -> Option<usize>
    ensures { result ≡ position (λ x. leb patterns x) table.now }
{
    table.iter().position(|&x| patterns <= x)
}

// The row of each value goes to the value's place in `inverse`, up to the first entry that equals an earlier one, and says which that is. A value stood
// before if its place names an earlier row that holds it: whatever the array held at first, nothing else passes this test.
pub fn invert_entries(table: &[u16], inverse: &mut [u16]) -> Option<usize>
    requires short { length table.now ≤ 729 }
    requires placed { (p : ℕ) → p < length table.now → get_or table.now p 0 < length inverse.old }
    ensures value { result ≡ found_at (length table.now) (first_repeated table.now) }
    ensures back { Back table.now inverse.new (first_repeated table.now) }
{
    for (i, &x) in table.iter().enumerate() {
        let row = inverse[x as usize] as usize;
        if row < i && table[row] == x {
            return Some(i);
        }
        inverse[x as usize] = i as u16;
    }
    None
}
