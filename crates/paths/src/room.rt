// Refusal 4: whether two lent lists are long enough.
ghost use Rattle.sheet.specs.Rules.{Staged};
ghost use Rattle.paths.specs.Questions.{room_rules};

use sheet::refusal::Refusal;

// Both lists by their lengths, each with how many entries are needed.
pub fn check_room(
    first: usize,
    needed: usize,
    second: usize,
    needed_too: usize,
) -> Result<(), Refusal>
    ensures { Staged (room_rules first needed second needed_too) result }
{
    if first < needed {
        return Err(Refusal::FirstList);
    }
    if second < needed_too {
        return Err(Refusal::SecondList);
    }
    Ok(())
}
