//! Laws that callers may cite. Each law is the contract of a function that does nothing.

ghost use Rattle.handlebars_base.specs.ComparisonLaws.{EqualIsSame, EqualIsReflexive, EqualIsSymmetric, EqualIsTransitive, OrderIsAntisymmetric, IsTotalOrder, IsNumber, IsTextValue, OrderAgreesOnNumbers};
ghost use Rattle.handlebars_base.specs.EscapeLaws.{Joins, IsInjective, IsUnmarked, BeginsEntities};
ghost use Rattle.handlebars_base.specs.Laws.{OneMeaning, PathPrefixes};

/// A text has at most one meaning as a path.
pub fn one_meaning()
    ensures { OneMeaning }
{}

/// `split_path` and `read_prefix` find exactly the paths at the start of a text that end where no reference continues.
pub fn path_prefixes()
    ensures { PathPrefixes }
{}

/// Equal values are the same value, apart from numbers outside the range. So equality is reflexive, symmetric and
/// transitive.
pub fn equality_laws()
    ensures same { EqualIsSame }
    ensures reflexive { EqualIsReflexive }
    ensures symmetric { EqualIsSymmetric }
    ensures transitive { EqualIsTransitive }
{}

/// Swapping two values reverses their order. The order is total on numbers and on texts. Two numbers are ordered as equal
/// exactly if they are equal.
pub fn order_laws()
    ensures antisymmetric { OrderIsAntisymmetric }
    ensures numbers { IsTotalOrder IsNumber }
    ensures texts { IsTotalOrder IsTextValue }
    ensures agrees { OrderAgreesOnNumbers }
{}

/// The laws of escaping.
pub fn escape_laws()
    ensures joins { Joins }
    ensures injective { IsInjective }
    ensures unmarked { IsUnmarked }
    ensures entities { BeginsEntities }
{}
