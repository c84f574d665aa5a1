//! Names and the places that they stand for.
ghost use Rattle.std.specs.Prelude.{◌≡◌, OnOk};
ghost use Rattle.rv_text.specs.Assembly.{with_name};
ghost use Rattle.rv_text.specs.Places.{places_of, distances_in};

use std::alloc::AllocError;
use std::collections::BTreeMap;

/// The places of names, in bytes from the first word.
pub type Places<'a> = BTreeMap<&'a [u8], u32>;

/// From where distances to names are counted.
#[derive(Clone, Copy)]
pub enum Scope<'m, 'a> {
    /// From the name itself, as places aren't known yet.
    Near,
    /// From a word at this place.
    At(&'m Places<'a>, u32),
}

/// Gives a name its place.
pub fn define<'a>(names: &mut Places<'a>, name: &'a [u8], place: u32) -> Result<(), AllocError>
    ensures { OnOk result (places_of names.new ≡ with_name (places_of names.old) name.now place) }
{
    names.insert(name, place)?;
    Ok(())
}

/// The place of a name.
pub fn place_of(names: &Places<'_>, name: &[u8]) -> Option<u32>
    ensures { result ≡ places_of names.now name.now }
{
    names.get(name).copied()
}

/// How far a name's place is, and `None` if it has none.
pub fn distance(scope: &Scope<'_, '_>, name: &[u8]) -> Option<i64>
    ensures { result ≡ distances_in scope.now name.now }
{
    match scope {
        Scope::Near => Some(0),
        Scope::At(places, here) => Some(place_of(places, name)? as i64 - *here as i64),
    }
}
