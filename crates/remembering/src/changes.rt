// What the search remembers stays true where a gate changes: the rows before it that reach it are looked at again, and its own starts anew.
ghost use Rattle.std.specs.Prelude.{◌≡◌, true, cond, ◌+◌, ◌*◌, ◌≤◌, ◌<◌, set};
ghost use Rattle.remembering.specs.Inner.Buffers.{is_gap, GateOrGap};
ghost use Rattle.remembering.specs.Inner.LentBuffers.{held};
ghost use Rattle.remembering.specs.Inner.Rows.{settled_mark, RowKnown};
ghost use Rattle.remembering.specs.Inner.Views.{SeenAs, StretchesMarked};
ghost use Rattle.remembering.specs.Inner.Memories.{MemoryTrue, ReachKept};
ghost use Rattle.remembering.specs.Inner.GateChanges.{change_of, ChangeFits, RowsAhead, LookFits, LookedAgain, Looked};

use super::buffer::Buffer;
use super::memory::Memory;
use super::rows::SETTLED;
use super::views::{Sets, UNKNOWN};
use gates::Gate;

// The gate or gap at a place of the buffer is to become a gate, or a gap: seen is what this must not meet. No row before `from` has a pair yet.
#[derive(Clone, Copy)]
pub struct Change {
    pub place: usize,
    pub gate: Gate,
    pub seen: Sets,
    pub from: usize,
}

impl Change {
    // The gate at a place is to become another.
    pub fn new(place: usize, gate: Gate, from: usize) -> Self
        requires { GateOrGap gate }
        ensures { (result ≡ change_of place gate from result.seen) × SeenAs gate result.seen }
    {
        Change {
            place,
            gate,
            seen: super::views::see_gate(gate),
            from,
        }
    }
}

// The number of row r, which was n, after the change: what lies before the place stays, and the pair of row r with the place is looked at again.
fn look_again(buffer: &Buffer, change: Change, r: usize, n: u16) -> u16
    requires { ChangeFits buffer.now change × (r < change.place) × RowKnown (held buffer.now) r n }
    ensures { RowKnown (set (held buffer.now) change.place change.gate) r result }
{
    let c = (n % SETTLED) as usize;
    if c < change.place {
        return n;
    }
    if change.place < c {
        let h = buffer.word(r);
        let w = gates::words::word_of(change.gate);
        if rules::passing::may_change(h, w) && !rules::fitting::fits_pair(h, w) {
            return n;
        }
    }
    change.place as u16
}

// The sixteen rows from x on, those before the change, look at it again; answers the lowest of them that may have a pair then, or `from`.
fn look_from(buffer: &Buffer, far: &mut [u16], change: Change, x: usize) -> usize
    requires { ChangeFits buffer.now change × RowsAhead (held buffer.now) far.old change x }
    ensures { LookedAgain (held buffer.now) change far.old far.new x (x + 16) result }
{
    let mut low = change.from;
    for r in x..change.place.min(x + 16) {
        let n = look_again(buffer, change, r, far[r]);
        far[r] = n;
        if n < SETTLED {
            low = low.min(r);
        }
    }
    low
}

// No row of stretch s is to be looked at again: none ends at the place, and all pass what it is to become. What is known of a stretch that may
// change soon is not worth the making.
fn stretch_stays(buffer: &Buffer, far: &[u16], marks: &mut [Sets], change: Change, s: usize) -> bool
    requires { ChangeFits buffer.now change × StretchesMarked (held buffer.now) marks.old
        × RowsAhead (held buffer.now) far.now change (16 * s) }
    ensures stretches_marked { StretchesMarked (held buffer.now) marks.new }
    ensures looked_again { result ≡ true → LookedAgain (held buffer.now) change far.now far.now (16 * s) (16 * s + 16) change.from }
{
    if change.from < 16 * s + 16 {
        return false;
    }
    super::views::mark_stretch(buffer, marks, s);
    if !change.seen.meets_none(marks[s]) {
        return false;
    }
    super::rows::count_rows(&far[16 * s..16 * s + 16], change.place as u16) == 0
}

// The number of row p, which starts anew with g.
fn own_row(p: usize, g: Gate) -> u16
    requires { p < 8000 }
    ensures { result ≡ cond (is_gap g) settled_mark (p + 1) }
{
    if g.operator == 0 {
        return SETTLED;
    }
    (p + 1) as u16
}

impl<const R: usize, const S: usize> Memory<R, S> {
    // The rows of stretch s look at the change again, where one of them reaches it.
    fn look_stretch(&mut self, buffer: &Buffer, change: Change, s: usize) -> usize
        requires { LookFits buffer.now self.old change (16 * s) }
        ensures looked { Looked (held buffer.now) change self.old self.new (16 * s) (16 * s + 16) result }
        ensures reach_kept { ReachKept self.old self.new }
    {
        if ((self.reach[s] % SETTLED) as usize) < change.place {
            return change.from;
        }
        if stretch_stays(buffer, &self.far, &mut self.marks, change, s) {
            return change.from;
        }
        let low = look_from(buffer, &mut self.far, change, 16 * s);
        let far = &self.far[..];
        self.reach[s] = super::rows::furthest(&far[16 * s..16 * s + 16]);
        low
    }

    // The same of the sixteen stretches from x on.
    fn look_stretches(&mut self, buffer: &Buffer, change: Change, x: usize) -> usize
        requires { LookFits buffer.now self.old change (16 * x) }
        ensures looked { Looked (held buffer.now) change self.old self.new (16 * x) (16 * x + 256) result }
        ensures reach_kept { ReachKept self.old self.new }
    {
        let reach = &self.reach[..];
        if (super::rows::furthest(&reach[x..x + 16]) as usize) < change.place {
            return change.from;
        }
        let mut low = change.from;
        for s in x..((change.place + 15) / 16).min(x + 16) {
            low = low.min(self.look_stretch(buffer, change, s));
        }
        low
    }

    // What is remembered becomes true of the buffer as the change will leave it. Answers the lowest row that may have a pair then.
    pub fn settle_rows(&mut self, buffer: &Buffer, change: Change) -> usize
        requires { ChangeFits buffer.now change × MemoryTrue (held buffer.now) self.old buffer.now.count change.from }
        ensures settled { (result ≤ change.from)
            × MemoryTrue (set (held buffer.now) change.place change.gate) self.new buffer.now.count result }
        ensures reach_kept { ReachKept self.old self.new }
    {
        let p = change.place;
        let mut low = change.from;
        for x in 0..(p + 255) / 256 {
            low = low.min(self.look_stretches(buffer, change, 16 * x));
        }
        self.far[p] = own_row(p, change.gate);
        super::rows::raise_reach(&mut self.reach, p, (p + 1) as u16);
        self.marks[p / 16] = UNKNOWN;
        low
    }
}

#[cfg(test)]
mod tests {
    use super::*;

    // C1 x0 goes: no row may have a pair then, its own has the gap's number, and its stretch reaches as far as from the start on.
    #[test]
    fn row_of_a_gap_is_settled(rt: HostRuntime) {
        let mut bytes = [1, 0, 3, 3, 3, 3, 3, 3];
        let buffer = Buffer::new(&mut bytes, 1);
        let mut memory = Memory::<80, 20>::new();
        memory.start(1);
        let gap = Gate {
            operator: 0,
            target: 6,
            controls: 0x0fff,
        };
        let low = memory.settle_rows(&buffer, Change::new(0, gap, 0));
        assert_eq!(rt; low, 0);
        assert_eq!(rt; memory.far[0], SETTLED);
        assert_eq!(rt; memory.reach[0], 16);
    }
}
