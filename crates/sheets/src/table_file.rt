// The lines and the entries of a table file.
ghost use Rattle.std.specs.Prelude.{◌≡◌, ◌+◌, ◌*◌, length};
ghost use Rattle.sheets.specs.Sheets.{lines_of, entries_of};

// The first byte, 0 for an empty input, as `lines_of` has it: no lines are refused by 1.
#[tactic(auto, unfolding(crate::specs::Sheets::lines_of))]
pub fn lines_of(file: &[u8]) -> u8
    ensures { result ≡ lines_of file.now }
{
    file.first().copied().unwrap_or(0)
}

// All entries: 16 bits each, low byte first.
pub fn read_entries(file: &[u8], table: &mut [u16])
    requires { length file.now ≡ 1 + 2 * length table.old }
    ensures { table.new ≡ entries_of file.now }
{
    for (i, entry) in table.iter_mut().enumerate() {
        *entry = u16::from_le_bytes([file[1 + 2 * i], file[2 + 2 * i]]);
    }
}
