// What all inputs hold, at once. A plane is a set of inputs: a bit for each, in 12 words, enough for the 729 patterns of six lines; input p has bit
// p % 64 of word p / 64. Each line has a plane for each control (0, 1, 2, or 3 for none): the inputs with which the control is content. A gate is then a
// few operations on whole planes.
ghost use Rattle.std.specs.Prelude.{◌≡◌, ℕ, ◌*◌, ◌≤◌, ◌<◌, Bool, cond, not, ◌&&◌, ◌||◌};
ghost use Rattle.digits.specs.Digits.{digit};
ghost use Rattle.gates.specs.Gates.{act, inverse_op, fires_on, applied};
ghost use Rattle.cascades.specs.Cascades.{gates_of, ran};
ghost use Rattle.cascades.specs.Inner.Checked.{Whole};
ghost use Rattle.tabulating.specs.Inner.Planes.{member, PlaneHas, LineShows, Shows, GateOnPlanes};

use gates::Gate;
use std::array;

// A set of inputs.
pub type Plane = [u64; 12];

// Those of a line, one for each control.
pub type LinePlanes = [Plane; 4];

// Those of six lines.
pub type Planes = [LinePlanes; 6];

// The inputs that both planes have.
fn intersect(one: &Plane, two: &Plane) -> Plane
    ensures { (p : ℕ) → p < 768 → member result p ≡ (member one.now p && member two.now p) }
{
    array::from_fn(|j| one[j] & two[j])
}

// The inputs that neither plane has.
fn leave_out(one: &Plane, two: &Plane) -> Plane
    ensures { (p : ℕ) → p < 768 → member result p ≡ not (member one.now p || member two.now p) }
{
    array::from_fn(|j| !(one[j] | two[j]))
}

// The inputs on which a gate with these controls fires.
fn find_firing(planes: &Planes, controls: u16) -> Plane
    ensures { (n : ℕ) (f : ℕ → ℕ) → Shows n planes.now f → PlaneHas n result (λ p. fires_on 3 controls (f p)) }
{
    let mut firing = [u64::MAX; 12];
    for (k, line) in planes.iter().enumerate() {
        let control = gates::controls::control_on(controls, k) as usize;
        firing = intersect(&firing, &line[control]);
    }
    firing
}

// The digit that an operator takes to this one.
fn find_source(operator: u8, digit: u16) -> usize
    requires { digit < 3 }
    ensures { (result ≡ act (inverse_op operator) digit) × (result < 3) }
{
    gates::act_on(gates::invert_op(operator), digit) as usize
}

// A plane for a digit after a gate: where it fires, that for the digit's source.
fn turn_plane(old: &Plane, source: &Plane, firing: &Plane) -> Plane
    ensures { (p : ℕ) → p < 768 → member result p ≡ cond (member firing.now p) (member source.now p) (member old.now p) }
{
    array::from_fn(|j| ((source[j] ^ old[j]) & firing[j]) ^ old[j])
}

// A line's planes after an operator, where it fires: 2 is held where neither 0 nor 1 is, and the plane for none stays as it is.
fn turn_line(line: &LinePlanes, operator: u8, firing: &Plane) -> LinePlanes
    requires { (1 ≤ operator) × (operator ≤ 5) }
    ensures { (n : ℕ) (x : ℕ → ℕ) (t : ℕ → Bool) → LineShows n line.now x → PlaneHas n firing.now t → LineShows n result (λ p. cond (t p) (act operator (x p)) (x p)) }
{
    let zero = turn_plane(&line[0], &line[find_source(operator, 0)], firing);
    let one = turn_plane(&line[1], &line[find_source(operator, 1)], firing);
    let two = leave_out(&zero, &one);
    [zero, one, two, line[3]]
}

// A gate.
fn apply_gate(planes: &mut Planes, g: Gate)
    requires { GateOnPlanes g }
    ensures { (n : ℕ) (f : ℕ → ℕ) → Shows n planes.old f → Shows n planes.new (λ p. applied g (f p)) }
{
    let firing = find_firing(planes, g.controls);
    let target = g.target as usize;
    planes[target] = turn_line(&planes[target], g.operator, &firing);
}

// The gates of a cascade that was checked, first to last.
pub fn apply_gates(lines: u8, cascade: &[u8], m: usize, planes: &mut Planes)
    requires { Whole lines cascade.now m }
    ensures { (n : ℕ) (f : ℕ → ℕ) → Shows n planes.old f → Shows n planes.new (λ p. ran (gates_of cascade.now) (f p)) }
{
    for i in 0..m {
        let w = gates::words::word_at(cascade, 8 * i);
        apply_gate(planes, gates::words::gate_of(w));
    }
}
