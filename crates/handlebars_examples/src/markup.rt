//! A worked example that is blind to the texts of its data, and one that isn't.

ghost use Rattle.handlebars_examples.specs.MarkupExamples.{TitleSourceExample, BlindExample, ReadingSourceExample};
ghost use Rattle.handlebars_examples.specs.MarkupExamples.{ReadsTextsExample, ReadingAnswersExample};
ghost use Rattle.handlebars_examples.specs.MarkupExamples.{AlikeExample, EmptyTextExample, MarksExample};

/// States that with a new registry a source that writes a text into an attribute is blind, and one that inspects a text is not,
/// whose answers over data that is equal up to texts differ; which data are equal up to texts; and what the marks of a text are.
pub fn worked_markup()
    ensures title_source { TitleSourceExample }
    ensures blind { BlindExample }
    ensures reading_source { ReadingSourceExample }
    ensures reads_texts { ReadsTextsExample }
    ensures reading_answers { ReadingAnswersExample }
    ensures alike { AlikeExample }
    ensures empty { EmptyTextExample }
    ensures marks { MarksExample }
{}
