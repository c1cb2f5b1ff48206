//! Laws of the definitions of this crate, for proofs that build on them.

ghost use Rattle.handlebars_scope.specs.Prefixes.{TakesLongest};

/// Recursive lookup takes the longest prefix of the base path under which a name has a value.
pub fn recursive_lookup_law()
    ensures { TakesLongest }
{}
