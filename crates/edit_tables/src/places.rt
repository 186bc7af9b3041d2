// Where indices come to stand.
ghost use Rattle.std.specs.Prelude.{◌≡◌, ◌<◌, IfOk, length};
ghost use Rattle.edit_tables.specs.Places.{counts_from, lives_in, place_in};

use jv_base::M;
use std::alloc::Global;

/// How many indices are left before each one, and before the end.
pub fn places(alloc: Global, lives: &[bool]) -> M<Vec<u32>>
    requires { length lives.now < 4294967295 }
    ensures { IfOk result (λ places. places.items ≡ counts_from 0 lives.now) }
{
    let mut places = Vec::new(alloc);
    let mut count = 0;
    for lives in lives {
        places.push(count)?;
        if *lives {
            count += 1;
        }
    }
    places.push(count)?;
    Ok(places)
}

/// Where an index comes to stand.
pub fn place_in(places: &[u32], at: u32) -> u32
    ensures { result ≡ place_in places.now at }
{
    match places.get(at as usize) {
        Some(place) => *place,
        None => 0,
    }
}

/// Whether an index is left.
pub fn lives_in(lives: &[bool], at: usize) -> bool
    ensures { result ≡ lives_in lives.now at }
{
    match lives.get(at) {
        Some(lives) => *lives,
        None => true,
    }
}
