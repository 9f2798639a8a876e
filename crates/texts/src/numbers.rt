// Numbers in decimal.
ghost use Rattle.std.specs.Prelude.{◌≡◌, ◌≤◌};
ghost use Rattle.texts.specs.Texts.{width};

// How many digits x has; 0 has one, though no power of ten is as small.
pub fn size_decimal(x: usize) -> usize
    ensures digits { result ≡ width x }
    ensures most { result ≤ 20 }
{
    match x.checked_ilog10() {
        Some(power) => power as usize + 1,
        None => 1,
    }
}
