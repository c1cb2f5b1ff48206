//! Laws that hold of every source, for callers to cite.

ghost use Rattle.handlebars_template.specs.Compile.{OneCompilation};
ghost use Rattle.handlebars_template.specs.Tokens.{TokensJoin, OneTokenization};
ghost use Rattle.handlebars_template.specs.ParameterParsing.{OneParsing};
ghost use Rattle.handlebars_template.specs.Stays.{TreesStay};

/// The tokens of a source join to the source.
pub fn tokens_join()
    ensures { TokensJoin }
{}

/// A source has at most one tokenization into texts and tags.
pub fn one_tokenization()
    ensures { OneTokenization }
{}

/// A source has at most one outcome: a tree or an error, and not both.
pub fn one_compilation()
    ensures { OneCompilation }
{}

/// A source that compiles to a tree when no path may name a block compiles to the same tree when a path may.
pub fn trees_stay()
    ensures { TreesStay }
{}

/// Parsing a text as a parameter has at most one result: the parameter or an error, and not both.
pub fn one_parsing()
    ensures { OneParsing }
{}
