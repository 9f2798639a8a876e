// The planes of inputs that no gate has touched: input p is pattern p.
ghost use Rattle.std.specs.Prelude.{◌≡◌, ℕ, ◌+◌, ◌≤◌, ◌<◌, ◌||◌, ◌&&◌, eqb, get_or, []};
ghost use Rattle.tabulating.specs.Inner.Planes.{member, Shows, ShownUpTo};

use super::planes::{LinePlanes, Plane, Planes};

// Input p joins a plane.
fn add_input(plane: &mut Plane, p: usize)
    requires { p < 729 }
    ensures { (q : ℕ) → q < 729 → member plane.new q ≡ (member plane.old q || eqb q p) }
{
    plane[p / 64] |= 1 << (p % 64);
}

// Input p joins the plane of a line for the digit that the line holds.
fn add_to_line(line: &mut LinePlanes, digit: usize, p: usize)
    requires { (digit < 4) × (p < 729) }
    ensures { (c q : ℕ) → q < 729 → member (get_or line.new c []) q ≡ (member (get_or line.old c []) q || eqb c digit && eqb q p) }
{
    add_input(&mut line[digit], p);
}

// Input p joins on all lines.
fn lay_input(planes: &mut Planes, p: u16)
    requires { p < 729 }
    ensures { ShownUpTo planes.old p → ShownUpTo planes.new (p + 1) }
{
    let q = gates::quads::quad_of(p);
    for (k, line) in planes.iter_mut().enumerate() {
        add_to_line(line, gates::controls::control_on(q, k) as usize, p as usize);
    }
}

// The planes of so many inputs, whatever they held before: the inputs join one after the other. A control that is none is content with all: its planes have
// every bit from the start. They are lent, since to hand them out copies them.
pub fn lay_inputs(planes: &mut Planes, count: u16)
    requires { count ≤ 729 }
    ensures { Shows count planes.new (λ p. p) }
{
    *planes = [[[0; 12]; 4]; 6];
    for line in planes.iter_mut() {
        line[3] = [u64::MAX; 12];
    }
    for p in 0..count {
        lay_input(planes, p);
    }
}
