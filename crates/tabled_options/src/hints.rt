//! Hints of what changes.

ghost use Rattle.std.specs.Prelude.{◌≡◌};
ghost use Rattle.tabled_options.specs.Hints.{IsCombined, combined, combined_hint, names_all_of};

use tabled_grid::config::Entity;

/// The one of two entities that covers the other, or `Global`.
///
/// Ported from `tabled::settings::settings_list::combine_entity`.
pub fn combine_entity(a: Entity, b: Entity) -> Entity
    ensures exact { result ≡ combined a b }
    ensures means { IsCombined a b result }
{
    if covers(a, b) {
        a
    } else if covers(b, a) {
        b
    } else {
        Entity::Global
    }
}

/// Combines the hints that are there.
pub(crate) fn combine_hints(a: Option<Entity>, b: Option<Entity>) -> Option<Entity>
    ensures { result ≡ combined_hint a b }
{
    match (a, b) {
        (Some(a), Some(b)) => Some(combine_entity(a, b)),
        (None, hint) => hint,
        (hint, None) => hint,
    }
}

/// Says whether all cells of the second entity are cells of the first.
fn covers(a: Entity, b: Entity) -> bool
    ensures { result ≡ names_all_of a b }
{
    match (a, b) {
        (Entity::Global, _) => true,
        (Entity::Column(j), Entity::Column(l)) => j == l,
        (Entity::Column(j), Entity::Cell(_, l)) => j == l,
        (Entity::Row(i), Entity::Row(k)) => i == k,
        (Entity::Row(i), Entity::Cell(k, _)) => i == k,
        (Entity::Cell(i, j), Entity::Cell(k, l)) => i == k && j == l,
        _ => false,
    }
}
