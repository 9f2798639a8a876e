// The search for the first open pair that fits a rule.
ghost use Rattle.std.specs.Prelude.{◌≡◌, ◌<◌, MatchOption};
ghost use Rattle.rules.specs.Rules.{fits};
ghost use Rattle.rules.specs.Tidying.{gate};
ghost use Rattle.remembering.specs.Inner.LentBuffers.{held};
ghost use Rattle.tidying.specs.Inner.PairSearches.{Remembers, PairAt};

use remembering::buffer::Buffer;
use remembering::memory::Memory;

// Two places of a cascade.
#[derive(Clone, Copy)]
pub struct Pair {
    pub i: usize,
    pub j: usize,
}

// A rule fits the gates at two places. They are read here: what the test of few pairs needs is not made ready for all.
fn fits_places(buffer: &Buffer, i: usize, j: usize) -> bool
    requires { (i < buffer.now.count) × (j < buffer.now.count) }
    ensures { result ≡ fits (gate (held buffer.now) i) (gate (held buffer.now) j) }
{
    rules::fitting::fits_pair(buffer.word(i), buffer.word(j))
}

// The smallest i that has a fitting open pair, then the smallest j. No row before `from` has one, and a row goes on from where it is known to be
// clear. Two loops and a labelled break out of both are document 01's form for the search; both go on by more than one place at a time.
pub fn find_pair<const R: usize, const S: usize>(
    buffer: &Buffer,
    memory: &mut Memory<R, S>,
    from: usize,
) -> Option<Pair>
    requires { Remembers buffer.now memory.old from }
    ensures { MatchOption result (Remembers buffer.now memory.new buffer.now.count)
        (λ pair. Remembers buffer.now memory.new pair.i × PairAt (held buffer.now) pair) }
{
    let m = buffer.count;
    let mut from = from;
    'rows: loop {
        let i = memory.next_row(m, from)?;
        let g = buffer.word(i);
        let mut j = memory.far[i] as usize;
        while j < m {
            let h = buffer.word(j);
            if !rules::passing::may_change(g, h) {
                break;
            }
            if fits_places(buffer, i, j) {
                break 'rows Some(Pair { i, j });
            }
            j = memory.pass_stretches(buffer, i, j + 1);
        }
        memory.stop_row(i, j);
        from = i + 1;
    }
}
