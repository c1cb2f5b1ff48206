//! Worked premises of laws.

ghost use Rattle.handlebars_examples.specs.LawExamples.{OfSourcesExample, TitlesExample, NoOtherMarksExample};
ghost use Rattle.handlebars_examples.specs.LawExamples.{BlankIndentsExample, HelloExample, PlainTreesExample};
ghost use Rattle.handlebars_examples.specs.LawExamples.{PlainRegistryExample, PlainMarkupExample, MainSourceExample};
ghost use Rattle.handlebars_examples.specs.LawExamples.{OthersExample, SourceAgreesExample};

use handlebars_base::laws::escape_laws;

/// States of which registries and answers the premises of some laws hold, and what the laws then say: templates of sources are
/// as compiled, so marks and indentations are where these have them; with a new registry templates of texts and values alone
/// are blind; and the answer of a template that includes another one is independent of what is registered beside, and agrees
/// with the answer by its source.
pub fn worked_laws()
    ensures of_sources { OfSourcesExample }
    ensures titles { TitlesExample }
    ensures marks { NoOtherMarksExample }
    ensures indents { BlankIndentsExample }
    ensures hello { HelloExample }
    ensures plain_trees { PlainTreesExample }
    ensures plain_registry { PlainRegistryExample }
    ensures plain_markup { PlainMarkupExample }
    ensures main_source { MainSourceExample }
    ensures others { OthersExample }
    ensures source_agrees { SourceAgreesExample }
{
    escape_laws();
}
