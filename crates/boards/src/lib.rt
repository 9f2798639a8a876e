// Which of the operators D, E and N a board has tiles for: a number, D 1, E 2, N 4, added, as the document and the calls from C have it.
#![tactic(auto)]

ghost use Rattle.std.specs.Prelude.{◌≡◌};
ghost use Rattle.boards.specs.Boards.{set_ok, is_fitted};

// One of them at least, and nothing else.
#[tactic(auto, unfolding(crate::specs::Boards::set_ok))]
pub fn set_ok(fitted: u8) -> bool
    ensures { result ≡ set_ok fitted }
{
    1 <= fitted && fitted <= 7
}

// N, D and E are 3, 4 and 5. C1 and C2 are on every board.
#[tactic(auto, unfolding(crate::specs::Boards::is_fitted, digits::specs::Digits::digit))]
pub fn is_fitted(fitted: u8, operator: u8) -> bool
    ensures { result ≡ is_fitted fitted operator }
{
    match operator {
        3 => fitted / 4 % 2 == 1,
        4 => fitted % 2 == 1,
        5 => fitted / 2 % 2 == 1,
        _ => true,
    }
}
