//! A table with its seats.
use crate::table::{MarkSeat, MarkTable};
use jv_base::Items;

/// A table at its start, with as many seats as were asked for. The first one holds the standing reservation.
pub struct Marking {
    pub table: MarkTable,
    pub seats: Items<MarkSeat>,
}
