// The FROM places of a select.
ghost use Rattle.std.specs.Prelude.{◌≡◌, length};
ghost use Rattle.hv_model.specs.Scope as spec;
ghost use Rattle.hv_model.specs.Scope.{places_refusal};

use hv_model::{PlaceAst, Refusal, SelectAst, Word};
use hv_row::Bytes;

/// The most FROM places of a select.
pub const MAX_PLACES: usize = 4;

/// The alias of a place; without one it is the table's name.
pub fn alias_of(place: &PlaceAst) -> &Word
    ensures { result.now ≡ spec.alias_of place.now }
{
    match &place.alias {
        Some(alias) => alias,
        None => &place.table,
    }
}

/// Whether one of the places has this alias.
fn has_alias(places: &[PlaceAst], alias: &Bytes) -> bool
    ensures { result ≡ spec.has_alias places.now alias.now }
{
    places
        .iter()
        .any(|place| alias_of(place).name.equals(alias))
}

/// Whether this is the number of the place at `at`.
fn is_number(number: Option<u8>, at: usize) -> bool
    ensures { result ≡ spec.is_number number at }
{
    match number {
        Some(number) => usize::from(number) == at,
        None => false,
    }
}

/// The first refusal of a place, with those before it.
fn place_refusal(before: &[PlaceAst], absent: Option<u8>, place: &PlaceAst) -> Option<Refusal>
    ensures { result ≡ spec.place_refusal before.now (length before.now) absent place.now }
{
    let at = before.len();
    let alias = alias_of(place);
    if at >= MAX_PLACES {
        Some(Refusal::TooManyPlaces {
            byte: place.table.byte,
        })
    } else if is_number(absent, at) {
        Some(Refusal::NoTable {
            byte: place.table.byte,
        })
    } else if has_alias(before, &alias.name) {
        Some(Refusal::DuplicateAlias { byte: alias.byte })
    } else {
        None
    }
}

/// The first refusal of FROM places from left to right: a fifth place, a table that doesn't stand, an alias that stood before.
/// `absent` is the number, from 0, of the first place among the first four whose table doesn't stand. The rule is this project's own.
pub fn places(ast: &SelectAst, absent: Option<u8>) -> Option<Refusal>
    ensures { result ≡ places_refusal ast.now.places absent }
{
    let places = ast.places.as_slice();
    for (at, place) in places.iter().enumerate() {
        let refusal = place_refusal(&places[..at], absent, place);
        if refusal.is_some() {
            return refusal;
        }
    }
    None
}
