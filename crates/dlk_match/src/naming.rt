//! Which names the names of an axiom may get.
ghost use Rattle.std.specs.Prelude.{◌≡◌, ◌↔◌, IsTrue};
ghost use Rattle.std.specs.List.{list_any};
ghost use Rattle.std.specs.Str.{bytes_eq};
ghost use Rattle.dlk_match.specs.Matching.{is_own, old_names, new_names, AreGiven, AreApart};

use dlk_tree::Name;

/// Whether the name is among those of the axiom.
fn is_own(own: &[Name], x: &Name) -> bool
    ensures { result ≡ is_own own.now x.now }
{
    own.iter().any(|name| x == name)
}

/// Whether the name gets one here.
fn is_old(renames: &[(Name, Name)], x: &Name) -> bool
    ensures { result ≡ list_any (bytes_eq x.now) (old_names renames.now) }
{
    for (name, _) in renames {
        if x == name {
            return true;
        }
    }
    false
}

/// Whether one gets the name here.
fn is_new(renames: &[(Name, Name)], y: &Name) -> bool
    ensures { result ≡ list_any (bytes_eq y.now) (new_names renames.now) }
{
    for (_, name) in renames {
        if y == name {
            return true;
        }
    }
    false
}

/// Whether only own names get one, and each at most one.
pub(crate) fn are_given(own: &[Name], renames: &[(Name, Name)]) -> bool
    ensures { IsTrue result ↔ AreGiven own.now renames.now }
{
    let mut rest = renames;
    while let Some(((x, _), others)) = rest.split_first() {
        if !is_own(own, x) || is_old(others, x) {
            return false;
        }
        rest = others;
    }
    true
}

/// Whether no two names become one, and none becomes another of the own ones.
pub(crate) fn are_apart(own: &[Name], renames: &[(Name, Name)]) -> bool
    ensures { IsTrue result ↔ AreApart own.now renames.now }
{
    let mut rest = renames;
    while let Some(((x, y), others)) = rest.split_first() {
        if is_own(own, y) && x != y || is_new(others, y) {
            return false;
        }
        rest = others;
    }
    true
}
