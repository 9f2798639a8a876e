// The numbers that are remembered of rows: how far a row is known to be clear, with SETTLED added where it is known to have no pair; that alone stands
// where a gate has gone. Here many of them are looked at at once.
ghost use Rattle.std.specs.Prelude.{◌≡◌, ◌==◌, ◌*◌, ◌/◌, ◌%◌, ◌≤◌, ◌<◌, All, count_by, get_or, length, max, set};
ghost use Rattle.remembering.specs.Inner.Rows.{settled_mark, NoPairBefore};

// Bit 14, above every place: a row with it has no pair. In the number, since an enum beside it would take twice the memory, and memory is fixed.
pub const SETTLED: u16 = 0x4000;

// None of these is clear further than this.
pub fn furthest(numbers: &[u16]) -> u16
    ensures bound { All (λ n. n % settled_mark ≤ result) numbers.now }
    ensures small { result < settled_mark }
{
    numbers.iter().map(|n| *n % SETTLED).max().unwrap_or(0)
}

// None of these is less than this. All are looked at, whatever the first is: a search that may end early is no vector loop.
fn smallest(numbers: &[u16]) -> u16
    ensures { All (λ n. result ≤ n) numbers.now }
{
    numbers.iter().copied().min().unwrap_or(u16::MAX)
}

// How many of these, from the first on, surely have no pair, sixteen at a time.
pub fn settled_run(numbers: &[u16]) -> usize
    ensures { (result ≤ length numbers.now) × NoPairBefore numbers.now result }
{
    let mut run = 0;
    for sixteen in numbers.as_chunks::<16>().0 {
        if smallest(sixteen) < SETTLED {
            break;
        }
        run += 16;
    }
    run
}

// How many of these are clear up to p.
pub fn count_rows(numbers: &[u16], p: u16) -> usize
    ensures { result ≡ count_by (λ n. n % settled_mark == p) numbers.now }
{
    let mut count = 0;
    for n in numbers {
        count += usize::from(*n % SETTLED == p);
    }
    count
}

// The stretch of row r reaches up to place n, or further.
pub fn raise_reach(reach: &mut [u16], r: usize, n: u16)
    requires { r < 16 * length reach.old }
    ensures { reach.new ≡ set reach.old (r / 16) (max (get_or reach.old (r / 16) 0 % settled_mark) n) }
{
    reach[r / 16] = (reach[r / 16] % SETTLED).max(n);
}
