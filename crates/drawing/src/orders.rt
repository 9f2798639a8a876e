// Tables in lexicographic order: the first, and the next.
ghost use Rattle.std.specs.Prelude.{◌≡◌, ◌≤◌, length, IsPermutation};
ghost use Rattle.std.specs.List.{range_with_len};

// Entry p is p: the first table of all.
pub fn write_first(table: &mut [u16])
    requires { length table.old ≤ 729 }
    ensures { table.new ≡ range_with_len 0 (length table.old) }
{
    for (p, entry) in table.iter_mut().enumerate() {
        *entry = p as u16;
    }
}

// The next table: the last entry with a larger one behind it takes the smallest such, and what is behind it is then in rising order. The last table stays.
pub fn write_next(table: &mut [u16])
    ensures { IsPermutation table.old table.new }
{
    let Some(k) = table.windows(2).rposition(|pair| pair[0] < pair[1]) else {
        return;
    };
    let entry = table[k];
    if let Some(m) = table.iter().rposition(|other| entry < *other) {
        table.swap(k, m);
    }
    table[k + 1..].reverse();
}
