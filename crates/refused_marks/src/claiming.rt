// A claim of an item.
ghost use Rattle.std.specs.Prelude.{◌≡◌, ◌<◌, false};
ghost use Rattle.mark_machine.specs.Machine.{May};
ghost use Rattle.mark_words.specs.Seats.{Becomes, IsSeatOf, after_claim, system_of, view};

use mark_words::{Claimed, MarkSeat, MarkTable};

/// `claim` of `mark_words`.
pub fn claim(table: &MarkTable, seat: &mut MarkSeat, id: u32) -> Claimed
    requires seat { IsSeatOf table.now seat.old }
    requires id { id < (system_of table.now).n }
    requires free { (view seat.old).reserved ≡ false }
    requires due { May (system_of table.now) (view seat.old) id }
    ensures { Becomes seat.old seat.new (after_claim (view seat.old) id result) }
{
    table.claim(seat, id)
}
