// Rows that stand at places which their names tell.
//
// A row is looked for at its own place and at the next few. One that finds none of them free isn't kept.
ghost use Rattle.std.specs.Prelude.{◌≡◌, ℕ, IfOk, IfSome, None, Some, slice_get};
ghost use Rattle.std.specs.List.{All};
ghost use Rattle.set_program.specs.bodies.Rows.{PutsRow};

use jv_base::M;
use std::alloc::Global;

/// So many places are looked at for a row.
pub(crate) const NEAR: usize = 8;

/// Places for this number of rows, with no row at any.
pub(crate) fn no_rows<T: Drop>(alloc: Global, count: usize) -> M<Vec<Option<T>>>
    ensures { IfOk result (λ rows. All (λ row. row ≡ None) rows.items) }
{
    let places = count.saturating_mul(2).saturating_add(NEAR);
    let mut rows = Vec::with_capacity(alloc, places)?;
    for _ in 0..places {
        rows.push(None)?;
    }
    Ok(rows)
}

/// A row goes to the first free place from its own on.
pub(crate) fn put_row<T: Drop>(rows: &mut Vec<Option<T>>, place: usize, row: T)
    ensures { PutsRow row rows.old.items rows.new.items }
{
    let Some(free) = free_place(rows.as_slice(), place) else {
        return;
    };
    if free < rows.len() {
        rows[free] = Some(row);
    }
}

fn free_place<T>(rows: &[Option<T>], place: usize) -> Option<usize> {
    for step in 0..NEAR {
        let next = place.saturating_add(step);
        if let Some(None) = rows.get(next) {
            return Some(next);
        }
    }
    None
}

/// The row at a place, if there is one.
pub(crate) fn row_at<T>(rows: &[Option<T>], place: usize) -> Option<&T>
    ensures { IfSome result (λ row. (place : ℕ) × slice_get rows.now place ≡ Some (Some row.now)) }
{
    rows.get(place)?.as_ref()
}

/// The place of a mark among so many, of which the last few are for rows that find their own taken.
pub(crate) fn place_of(mark: u64, places: usize) -> usize {
    let room = places.saturating_sub(NEAR) as u64;
    ((mark >> 32).wrapping_mul(room) >> 32) as usize
}
