// A whole table, by planes.
ghost use Rattle.std.specs.Prelude.{◌≡◌, ◌^◌, length};
ghost use Rattle.cascades.specs.Cascades.{gates_of, table_of};
ghost use Rattle.cascades.specs.Inner.Checked.{Whole};

// The table of a cascade that was checked.
pub fn write_table(lines: u8, cascade: &[u8], m: usize, table: &mut [u16])
    requires whole { Whole lines cascade.now m }
    requires table_len { length table.old ≡ 3 ^ lines }
    ensures { table.new ≡ table_of lines (gates_of cascade.now) }
{
    let mut planes = [[[0; 12]; 4]; 6];
    super::untouched::lay_inputs(&mut planes, table.len() as u16);
    super::planes::apply_gates(lines, cascade, m, &mut planes);
    super::shown_entries::write_entries(&planes, table);
}
