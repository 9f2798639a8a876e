// The entries that planes show.
ghost use Rattle.std.specs.Prelude.{◌≡◌, ◌≤◌, ◌<◌, cond, length};
ghost use Rattle.ranges.specs.Ranges.{span};
ghost use Rattle.tabulating.specs.Inner.Planes.{member, digit_on, entry_of};

use super::planes::{LinePlanes, Plane, Planes};

// 1 if input p is in a plane.
fn read_bit(plane: &Plane, p: usize) -> u16
    requires { p < 729 }
    ensures { result ≡ cond (member plane.now p) 1 0 }
{
    ((plane[p / 64] >> (p % 64)) % 2) as u16
}

// The digit that a line holds for input p, by its planes for 1 and 2.
fn read_digit(line: &LinePlanes, p: usize) -> u16
    requires { p < 729 }
    ensures { (result ≡ digit_on line.now p) × (result < 4) }
{
    read_bit(&line[1], p) + 2 * read_bit(&line[2], p)
}

// The pattern of input p.
fn read_entry(planes: &Planes, p: usize) -> u16
    requires { p < 729 }
    ensures { result ≡ entry_of planes.now p }
{
    let mut entry = 0;
    for (k, line) in planes.iter().enumerate() {
        entry += read_digit(line, p) * digits::power(k);
    }
    entry
}

// Those of a table's inputs.
pub fn write_entries(planes: &Planes, table: &mut [u16])
    requires { length table.old ≤ 729 }
    ensures { table.new ≡ span (entry_of planes.now) 0 (length table.old) }
{
    for (p, entry) in table.iter_mut().enumerate() {
        *entry = read_entry(planes, p);
    }
}
