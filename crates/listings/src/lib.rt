// The printed listing of a cascade.
#![tactic(auto)]

ghost use Rattle.std.specs.Prelude.{◌≡◌, length};
ghost use Rattle.card.specs.Answers.{number_as};
ghost use Rattle.listings.specs.Listings.{listing_answer, listing_room};

mod writing;

use card::Refusal;

// The listing of a cascade, into a room for bytes, and how many bytes it has: refusals 1, 6, 7, 5. Pricing finds 1, 6 and 7 on its way.
pub fn listing(lines: u8, cascade: &[u8], room: &mut [u8]) -> Result<usize, Refusal>
    ensures answer { number_as result ≡ listing_answer lines cascade.now (length room.old) }
    ensures room_after { room.new ≡ listing_room lines cascade.now room.old }
{
    let cost = pricing::price(lines, 2, 7, cascade)?;
    card::check_room(room.len(), writing::size_listing(lines, cascade, cost))?;
    Ok(writing::write_listing(lines, cascade, cost, room))
}
