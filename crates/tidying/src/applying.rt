// One step on the buffer, with what is remembered kept true: a gate replaced, and the rule that fits a pair. A gate that goes leaves a gap.
ghost use Rattle.std.specs.Prelude.{◌≡◌, ◌≤◌, ◌<◌, set};
ghost use Rattle.gates.specs.Inner.Words.{gate_of, GateWord};
ghost use Rattle.rules.specs.Tidying.{ruled};
ghost use Rattle.rules.specs.Inner.NamedRules.{rule_for};
ghost use Rattle.remembering.specs.Inner.Buffers.{ungapped, rank};
ghost use Rattle.remembering.specs.Inner.LentBuffers.{held, SameRecords};
ghost use Rattle.remembering.specs.Inner.GateChanges.{ChangeFits};
ghost use Rattle.tidying.specs.Inner.PairSearches.{Remembers, PairAt, left_by};

use super::pairs::Pair;
use gates::Gate;
use remembering::buffer::Buffer;
use remembering::changes::Change;
use remembering::memory::Memory;
use rules::fitting::{Left, Rule};

// What stands where a gate has gone. A gate like any other, since the buffer has room for records alone.
const GAP: Gate = Gate {
    operator: 0,
    target: 6,
    controls: 0x0fff,
};

// What the rule that fits leaves in the places of a pair, a gap where a gate goes.
fn leave_pair(g: u64, h: u64) -> Left
    requires { GateWord g × GateWord h }
    ensures { result ≡ left_by (rule_for (gate_of g) (gate_of h)) (gate_of g) (gate_of h) }
{
    let first = gates::words::gate_of(g);
    let second = gates::words::gate_of(h);
    match rules::fitting::rule_for(g, h) {
        Some(Rule::Cancel) => Left {
            first: GAP,
            second: GAP,
        },
        Some(Rule::Merge) => Left {
            first: GAP,
            second: second.invert(),
        },
        Some(Rule::Reduce) => rules::fitting::reduce_pair(first, second),
        None => Left { first, second },
    }
}

// The change is made in the buffer; answers the lowest row that may have a pair then.
fn replace<const R: usize, const S: usize>(
    buffer: &mut Buffer,
    memory: &mut Memory<R, S>,
    change: Change,
) -> usize
    requires { ChangeFits buffer.old change × Remembers buffer.old memory.old change.from }
    ensures same_records { SameRecords buffer.old buffer.new }
    ensures remembers { Remembers buffer.new memory.new result × (result ≤ change.from) }
    ensures gates_after { held buffer.new ≡ set (held buffer.old) change.place change.gate }
{
    let low = memory.settle_rows(buffer, change);
    buffer.set(change.place, change.gate);
    low
}

// The rule that fits the first pair; answers the lowest row that may have a pair then.
pub fn apply_rule<const R: usize, const S: usize>(
    buffer: &mut Buffer,
    memory: &mut Memory<R, S>,
    pair: Pair,
) -> usize
    requires { Remembers buffer.old memory.old pair.i × PairAt (held buffer.old) pair }
    ensures same_records { SameRecords buffer.old buffer.new }
    ensures remembers { Remembers buffer.new memory.new result }
    ensures gates_after { ungapped (held buffer.new)
        ≡ ruled (ungapped (held buffer.old)) (rank (held buffer.old) pair.i) (rank (held buffer.old) pair.j) }
{
    let left = leave_pair(buffer.word(pair.i), buffer.word(pair.j));
    let late = Change::new(pair.j, left.second, pair.i);
    let low = replace(buffer, memory, late);
    let early = Change::new(pair.i, left.first, low);
    replace(buffer, memory, early)
}
