//! Laws that callers may cite. Each is a function that does nothing: its contract is the law.

ghost use Rattle.handlebars_data.specs.JsonLaws.{RefusesAsSerdeJson, SpellsOutNumbers, RefusingChangesNothing, HasNoFloat};
ghost use Rattle.handlebars_data.specs.MergeLaws.{MergesByKey};
ghost use Rattle.handlebars_data.specs.RowLaws.{IsAsNew, ReplacesEarlierRow};

/// What a JSON text is as data is what serde_json reads, with its floats as they are written.
pub fn json_laws()
    ensures refuses { RefusesAsSerdeJson }
    ensures spells { SpellsOutNumbers }
    ensures refusing { RefusingChangesNothing }
    ensures no_float { HasNoFloat }
{}

/// Two objects are merged key by key: no key of the later one is lost, a key that only the earlier one has keeps its value, and a
/// key of neither is absent.
pub fn merge_laws()
    ensures { MergesByKey }
{}

/// Rows of a table may be read into the same object: nothing of the earlier row stays.
pub fn row_laws()
    ensures replaces { ReplacesEarlierRow }
    ensures as_new { IsAsNew }
{}
