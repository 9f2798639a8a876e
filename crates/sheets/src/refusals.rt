// The line of a refusal. The file itself is not read here: the contracts name its text by it.
ghost use Rattle.std.specs.Prelude.{◌≡◌, ◌≤◌, length};
ghost use Rattle.std.proofs.lemmas.List.Edits.{sets};
ghost use Rattle.card.specs.Card.{Answer.refused};
ghost use Rattle.card.specs.Answers.{number_of, place_of, number_as};
ghost use Rattle.sheets.specs.Sheets.{file_answer, sheet_text, sheet_answer, sheet_room};

use card::Refusal;
use texts::numbers;
use texts::storing::Writer;

// The line, from the start of the room on.
fn write_refusal(file: &[u8], refusal: Refusal, room: &mut [u8])
    requires { (file_answer file.now ≡ refused (number_of refusal) (place_of refusal)) × (length (sheet_text file.now) ≤ length room.old) }
    ensures { room.new ≡ sets room.old 0 (sheet_text file.now) }
{
    let mut out = Writer { room, at: 0 };
    out.write_labelled(b"refused ", refusal.number() as usize);
    out.write_labelled(b" at ", refusal.place());
    out.write_text(b"\n");
}

// The line, where the room has place for it; the line's own words have 13 bytes.
pub fn list_refusal(file: &[u8], refusal: Refusal, room: &mut [u8]) -> Result<usize, Refusal>
    requires { file_answer file.now ≡ refused (number_of refusal) (place_of refusal) }
    ensures answer { number_as result ≡ sheet_answer file.now (length room.old) }
    ensures room_after { room.new ≡ sheet_room file.now room.old }
{
    let k = numbers::size_decimal(refusal.number() as usize);
    let p = numbers::size_decimal(refusal.place());
    let size = 13 + k + p;
    card::check_room(room.len(), size)?;
    write_refusal(file, refusal, room);
    Ok(size)
}
