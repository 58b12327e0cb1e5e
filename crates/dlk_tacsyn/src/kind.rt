//! The names of atoms, those of the library and `derive`, and the arguments that they want.
ghost use Rattle.std.specs.Prelude.{◌≡◌, ◌∷◌, List, IfNone, IfSome, None, Some};
ghost use Rattle.dlk_tacsyn.specs.declared.argument.Written.{Written};
ghost use Rattle.dlk_tacsyn.specs.Rows.{is_at_place, is_bare, is_use, is_with_formula, kinds_of, row_found, rule_entry, text_row_of, wants};
ghost use Rattle.dlk_tacsyn.specs.Strategies.{Reading, followed, arguments_of};
ghost use Rattle.dlk_tacsyn.specs.Ties.{row_at};

use dlk_rules::{RuleWord, Shape};
use dlk_tree::Name;

/// What an argument of an atom must be.
#[derive(Clone, Copy, Debug, PartialEq, Eq)]
pub enum Kind {
    /// A place.
    FixedPlace,
    /// A place, or a locator in its stead.
    AnyPlace,
    /// A formula in quotes, in which no argument dot and no `_` stands.
    QuotedFormula,
    /// A term in quotes, in which no argument dot stands.
    QuotedTerm,
    /// A name.
    AName,
    /// Names with their new names, and pairs, in quotes.
    QuotedExtra,
}

/// The arguments of an atom: of these kinds in this order, and maybe one more.
#[derive(Clone, Copy, Debug)]
pub(crate) struct Row {
    pub wanted: &'static [Kind],
    pub optional: Option<Kind>,
}

impl Row {
    /// The kind of the next argument, and the row of those behind it. None comes where no more may follow.
    pub fn split(self) -> Option<(Kind, Row)>
        ensures none { IfNone result ((read : Reading) (w : Written) (ws : List Written) → arguments_of read self.wanted.now self.optional (w ∷ ws) ≡ None) }
        ensures found { IfSome result (λ next. (read : Reading) (w : Written) (ws : List Written)
            → arguments_of read self.wanted.now self.optional (w ∷ ws) ≡ followed read next.0 w (arguments_of read next.1.wanted.now next.1.optional ws)) }
    {
        let Row { wanted, optional } = self;
        if let Some((kind, others)) = wanted.split_first() {
            let rest = Row {
                wanted: others,
                optional,
            };
            return Some((*kind, rest));
        }
        let kind = optional?;
        Some((kind, wants(&[])))
    }
}

/// A row that nothing may follow.
fn wants(wanted: &'static [Kind]) -> Row
    ensures { row_at result ≡ wants wanted.now }
{
    Row {
        wanted,
        optional: None,
    }
}

/// The arguments of an atom for a rule, by the shape of the rule's.
fn kinds_of(shape: Shape) -> &'static [Kind]
    ensures { result.now ≡ kinds_of shape }
{
    match shape {
        Shape::OnePlace => &[Kind::AnyPlace],
        Shape::TwoPlaces => &[Kind::FixedPlace, Kind::FixedPlace],
        Shape::PlaceAndFormula => &[Kind::QuotedFormula, Kind::AnyPlace],
        Shape::OneFormula => &[Kind::QuotedFormula],
        Shape::PlaceAndName => &[Kind::AName, Kind::AnyPlace],
    }
}

/// Whether an atom of this name stands without arguments.
fn is_bare(name: &str) -> bool
    ensures { result ≡ is_bare name.now }
{
    name == "nil" || name == "close" || name == "leaf"
}

/// Whether an atom of this name uses an axiom.
fn is_use(name: &str) -> bool
    ensures { result ≡ is_use name.now }
{
    name == "useAt" || name == "useBack"
}

/// Whether this name of the library wants a place alone.
fn is_at_place(name: &str) -> bool
    ensures { result ≡ is_at_place name.now }
{
    name == "dW" || name == "dI" || name == "step"
}

/// Whether this name of the library wants a formula and a place.
fn is_with_formula(name: &str) -> bool
    ensures { result ≡ is_with_formula name.now }
{
    name == "loop" || name == "dC"
}

/// The arguments that this name wants in a text, where it isn't a rule's: that of another atom, or one of the library, or `derive`. None comes
/// where it is none of these.
fn own_row_of(text: &str) -> Option<Row>
    ensures none { IfNone result (text_row_of text.now ≡ row_found (rule_entry text.now)) }
    ensures found { IfSome result (λ row. text_row_of text.now ≡ Some (row_at row)) }
{
    if is_bare(text) {
        return Some(wants(&[]));
    }
    if text == "G" {
        return Some(wants(&[Kind::AnyPlace]));
    }
    if text == "boxCut" {
        return Some(wants(&[Kind::QuotedFormula, Kind::AnyPlace]));
    }
    if is_use(text) {
        return Some(Row {
            wanted: &[Kind::AName, Kind::AnyPlace],
            optional: Some(Kind::QuotedExtra),
        });
    }
    if text == "prop" {
        return Some(wants(&[]));
    }
    if is_at_place(text) {
        return Some(wants(&[Kind::FixedPlace]));
    }
    if is_with_formula(text) {
        return Some(wants(&[Kind::QuotedFormula, Kind::FixedPlace]));
    }
    if text == "dG" {
        return Some(wants(&[
            Kind::AName,
            Kind::QuotedTerm,
            Kind::QuotedTerm,
            Kind::FixedPlace,
        ]));
    }
    if text != "derive" {
        return None;
    }
    Some(wants(&[Kind::FixedPlace]))
}

/// The arguments that this name wants in a text: that of an atom, or one of the library, or `derive`. None comes where it is none of them.
pub(crate) fn text_row_of(name: &Name) -> Option<Row>
    ensures none { IfNone result (text_row_of name.now ≡ None) }
    ensures found { IfSome result (λ row. text_row_of name.now ≡ Some (row_at row)) }
{
    name.is_name();
    let Ok(text) = str::from_utf8(name.bytes()) else {
        return None;
    };
    if let Some(row) = own_row_of(text) {
        return Some(row);
    }
    let Some(word) = RuleWord::of(text) else {
        return None;
    };
    Some(wants(kinds_of(word.shape())))
}
