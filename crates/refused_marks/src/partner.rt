// An item that is finished, as `do_item` of `mark_workers` does it, of one pair.
ghost use Rattle.std.specs.Prelude.{◌≡◌, ◌≢◌, ◌∷◌, []};
ghost use Rattle.std.specs.List.{Contains};
ghost use Rattle.mark_core.specs.Marks.{needs_of};
ghost use Rattle.mark_core.specs.Valid.{PairBelow};
ghost use Rattle.mark_words.specs.Seats.{IsSeatOf, system_of, view};
ghost use Rattle.mark_workers.specs.Work.{IsBusy, Kept, Looked};

use mark_core::Pair;
use mark_words::{MarkSeat, MarkTable};

/// Finishes the item in hand, which needs nothing and is the first one of the only pair.
pub fn finish_pair(table: &MarkTable, seat: &mut MarkSeat, pair: Pair)
    requires seat { IsSeatOf table.now seat.old }
    requires busy { IsBusy (view seat.old) pair.one }
    requires needs { needs_of (system_of table.now) pair.one ≡ [] }
    requires pairs { (system_of table.now).pairs ≡ pair ∷ [] }
    requires apart { pair.two ≢ pair.one }
    requires below { PairBelow (system_of table.now).n pair }
    ensures { Contains (view seat.new).finished pair.one }
{
    see_partner(table, seat, pair);
    table.finish(seat);
}

/// Looks at the second item of the pair, and claims the consequence where that is marked.
fn see_partner(table: &MarkTable, seat: &mut MarkSeat, pair: Pair)
    requires seat { IsSeatOf table.now seat.old }
    requires busy { IsBusy (view seat.old) pair.one }
    requires pair { Contains (system_of table.now).pairs pair }
    requires below { PairBelow (system_of table.now).n pair }
    ensures seat { IsSeatOf table.now seat.new }
    ensures kept { Kept (system_of table.now).n (view seat.old) (view seat.new) }
    ensures seen { Looked (view seat.new) pair.one pair.two pair }
{
    if table.is_marked(seat, pair.two) {
        table.claim(seat, pair.derived);
    }
}
