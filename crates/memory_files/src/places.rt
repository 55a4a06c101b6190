//! The places of desks, by their paths.
ghost use Rattle.std.specs.Prelude.{◌≡◌, ◌<◌, ℕ, List, length, IfOk, IfSome};
ghost use Rattle.std.specs.List.{position_from};
ghost use Rattle.std.specs.Vec.{vec_len};
ghost use Rattle.memory_files.specs.Kept.{has_path, kept_in, with_files, IsPlaceOf};

use crate::kept_files::KeptFiles;
use std::alloc::{AllocError, Global};
use std::mem;

/// A path, and the two files of the desk there.
#[derive(Drop)]
pub struct Place {
    pub path: String,
    /// The files, unless there are none or a connection has them.
    pub files: Option<KeptFiles>,
}

/// Finds the first place with a path.
pub(crate) fn place_of(places: &[Place], path: &str) -> Option<usize>
    ensures value { result ≡ position_from (has_path path.now) 0 places.now }
    ensures within { IfSome result (λ at. at < length places.now) }
{
    places.iter().position(|place| place.path.as_str() == path)
}

/// Puts files at a place, and gives those that were there.
pub(crate) fn exchange(
    places: &mut Vec<Place>,
    at: usize,
    files: Option<KeptFiles>,
) -> Option<KeptFiles>
    requires { at < vec_len places.old }
    ensures after { places.new.items ≡ with_files places.old.items at files }
    ensures before { (path : List ℕ) → IsPlaceOf places.old.items path at → result ≡ kept_in places.old.items path }
{
    mem::replace(&mut places[at].files, files)
}

/// Returns the place of a path, after adding one without files if there is none.
pub(crate) fn add_place(
    alloc: Global,
    places: &mut Vec<Place>,
    path: &str,
) -> Result<usize, AllocError>
    ensures place { IfOk result (IsPlaceOf places.new.items path.now) }
    ensures kept { (other : List ℕ) → kept_in places.new.items other ≡ kept_in places.old.items other }
{
    if let Some(at) = place_of(places, path) {
        return Ok(at);
    }
    let at = places.len();
    let path = String::from_str(alloc, path)?;
    places.push(Place { path, files: None })?;
    Ok(at)
}
