//! Laws that callers may cite. Each is a function that does nothing: its contract is the law.

ghost use Rattle.std.specs.Prelude.{◌≡◌, Bool, false, List, [], Option, Result};
ghost use Rattle.serde_json.specs.Data.{Data};
ghost use Rattle.handlebars_base.specs.Bytes.{Text};
ghost use Rattle.handlebars_lexer.specs.Options.{Options};
ghost use Rattle.handlebars_semantics.specs.Answer.{FromName, FromSource};
ghost use Rattle.handlebars_semantics.specs.Compiled.{CompilesSo};
ghost use Rattle.handlebars_semantics.specs.Counted.{RendersCounted, JudgesCounted, EqualsCounted};
ghost use Rattle.handlebars_semantics.specs.Counted.{ComparesCounted, WalksCounted};
ghost use Rattle.handlebars_semantics.specs.Laws.{OneRun, StopsInBeginning, ComesOnce, ComesInTrees, AllHaveOrigins};
ghost use Rattle.handlebars_semantics.specs.Laws.{ElementHasOrigins, LeavesAround, OnlyNamedCount, SameUnderLarger};
ghost use Rattle.handlebars_semantics.specs.Laws.{SameWithSections};
ghost use Rattle.handlebars_semantics.specs.Marked.{DataIsNoMarkup, IndentsAreBlank};
ghost use Rattle.handlebars.specs.Calls.{CallsAgree, EndsUnbroken};
ghost use Rattle.handlebars.specs.Dev.{ReadsFiles, ReadsFor, stored_under};
ghost use Rattle.handlebars.specs.Files.{HasLoaded, IsByName, Loaded, Stop, files_of, is_dev, path_under, remembered_path};
ghost use Rattle.handlebars.specs.Folder.{FileFilter, Walkable, Walks};
ghost use Rattle.handlebars.specs.Markup.{AreReportedOnce, NoSource};
ghost use Rattle.handlebars.specs.Over.{ForName, ForSource, HoldsRead, SameAnswers, setting_under};
ghost use Rattle.handlebars.specs.Readers.{GivesOneAnswer, HasOneEnd, IsSameList, IsSameRead};
ghost use Rattle.handlebars.specs.View.{options_of, setting_of, setting_over, stored_tree};

use crate::registry::RegistryOf;
use crate::sources::{NoFiles, TemplateReader};
pub use handlebars_base::laws::{
    equality_laws, escape_laws, one_meaning, order_laws, path_prefixes,
};
pub use handlebars_expressions::laws::{
    one_binding, one_expression, one_literal, one_parameter, value_of_literal,
};
use handlebars_helpers::entries::UserParts;
pub use handlebars_lexer::laws::{clear_text, last_blanks, one_comment, one_tag, one_text};
use handlebars_scope::context::Context;
pub use handlebars_scope::laws::recursive_lookup_law;
pub use handlebars_template::laws::{
    one_compilation, one_parsing, one_tokenization, tokens_join, trees_stay,
};

/// Laws of runs.
///
/// Two runs of the same steps from the same state are equal, with the names of their inclusions, unless they stop on
/// the way. A run that stops on the way has written a prefix of the whole run's text.
///
/// A run of a tree comes to no occurrence twice, and all of its occurrences are in trees of the run. All that the run
/// of a tree or of an element alone writes has an origin there, if escaping is on, no indentation is in force and
/// nothing is captured at its start.
///
/// A tree's run that ends well preserves what surrounds it. A run that doesn't fail for the inclusion limit is the same
/// under every larger limit, and it doesn't depend on what is registered under names that no inclusion of it has. A
/// tree's run in the language without sections that doesn't fail for a name without a helper is the same with sections.
pub fn laws_of_runs<E: UserParts>(registry: &RegistryOf<E>, context: &Context)
    ensures one { OneRun (setting_of E.registered E.user registry.now context.now) }
    ensures beginning { StopsInBeginning (setting_of E.registered E.user registry.now context.now) }
    ensures once { ComesOnce (setting_of E.registered E.user registry.now context.now) }
    ensures origins { AllHaveOrigins (setting_of E.registered E.user registry.now context.now) }
    ensures element { ElementHasOrigins (setting_of E.registered E.user registry.now context.now) }
    ensures trees { ComesInTrees (setting_of E.registered E.user registry.now context.now) }
    ensures around { LeavesAround (setting_of E.registered E.user registry.now context.now) }
    ensures larger { SameUnderLarger (setting_of E.registered E.user registry.now context.now) }
    ensures named { OnlyNamedCount (setting_of E.registered E.user registry.now context.now) }
    ensures sections { SameWithSections (setting_of E.registered E.user registry.now context.now) }
{
    registry.entries.satisfies_law();
}

/// The calls that render agree, by one name or by one source, over a context or over data whose conversion gives its
/// value, whether they return a text or write to a writer. If two calls read the same trees, no writer fails and memory
/// doesn't run out, they return or write the same text, or fail with the same error. If a call to a writer ends well,
/// neither did so.
pub fn calls_agree<E: UserParts>(registry: &RegistryOf<E>)
    ensures names { (name : Text) (d : Data) (read : List Loaded)
        → ForName CallsAgree E.registered E.user registry.now name read d }
    ensures sources { (source : Text) (d : Data) (read : List Loaded)
        → ForSource CallsAgree E.registered E.user registry.now source read d }
    ensures ended_by_name { (name : Text) (d : Data) (read : List Loaded)
        → ForName EndsUnbroken E.registered E.user registry.now name read d }
    ensures ended_by_source { (source : Text) (d : Data) (read : List Loaded)
        → ForSource EndsUnbroken E.registered E.user registry.now source read d }
{
    registry.entries.satisfies_law();
}

/// If every file was read and compiled in dev mode, the answers are those of a registry without it that holds the trees
/// which were read and is otherwise the same: the same pieces, and the same outcome. So is the registry after the
/// registration of the files.
pub fn dev_mode_law<E: UserParts>()
    ensures names { (dev plain : RegistryOf E) (read : List Loaded) (d : Data) → HoldsRead read dev plain
        → (name : Text)
        → SameAnswers (setting_under E.registered E.user read dev d) (FromName (stored_under read dev) name)
        (setting_over E.registered E.user plain d) (FromName (stored_tree plain) name) }
    ensures sources { (dev plain : RegistryOf E) (read : List Loaded) (d : Data) → HoldsRead read dev plain
        → (source : Text)
        → SameAnswers (setting_under E.registered E.user read dev d) (FromSource (options_of dev) source)
        (setting_over E.registered E.user plain d) (FromSource (options_of plain) source) }
    ensures loaded { (dev plain : RegistryOf E) (read : List Loaded) → HasLoaded read dev plain
        → HoldsRead read dev plain }
{}

/// Data becomes markup only where a template asks for it, if the default escape is in force, and if all trees under
/// names are as compiling gives them, as are those in blocks that user-defined helpers pass. Each of `<`, `>`, `"`,
/// `'`, the backquote and `=` in an answer's text is in a text of a template, in the value of an html expression, or in
/// a text that a user-defined helper chose to write. Each `&` in an escaped value begins one of the seven entities.
/// Over such trees, indentation is spaces and tabs. What a source compiles to is such a tree.
pub fn markup_law<E: UserParts>()
    ensures names { (r : RegistryOf E) (read : List Loaded) (d : Data) (name : Text)
        → ForName DataIsNoMarkup E.registered E.user r name read d }
    ensures sources { (r : RegistryOf E) (read : List Loaded) (d : Data) (source : Text)
        → ForSource DataIsNoMarkup E.registered E.user r source read d }
    ensures named_indents { (r : RegistryOf E) (read : List Loaded) (d : Data) (name : Text)
        → ForName IndentsAreBlank E.registered E.user r name read d }
    ensures source_indents { (r : RegistryOf E) (read : List Loaded) (d : Data) (source : Text)
        → ForSource IndentsAreBlank E.registered E.user r source read d }
    ensures compiled { CompilesSo }
{
    escape_laws();
}

/// Faults, the locations that keep markup from being fixed, are reported in one order: the trees under names have one
/// list in byte order, and a rendering begins with at most one tree.
pub fn one_list_of_faults()
    ensures names { AreReportedOnce NoSource }
    ensures sources { (options : Options) (source : Text) → AreReportedOnce (FromSource options source) }
{}

/// The files that a registry remembers are in byte order of the names of their templates, each name once. A lookup of a
/// name gives what is remembered under it.
pub fn files_in_order<E: UserParts>(registry: &RegistryOf<E>)
    ensures order { IsByName (files_of registry.now) }
    ensures paths { (name : Text) → remembered_path registry.now name ≡ path_under (files_of registry.now) name }
{
    registry.files_are_in_order();
}

/// Without dev mode no file is read, and the reader is unchanged. What is registered under names is then the stored
/// trees alone.
pub fn without_dev_mode<E: UserParts, R: TemplateReader>()
    ensures unread { (plain : RegistryOf E) (asked : Option Text) (before after : R) (read : List Loaded)
        (end : Result (Unit {0}) Stop) → is_dev plain ≡ false
        → ReadsFor R.reads plain asked before after read end → (read ≡ []) × (after ≡ before) }
    ensures stored { (plain : RegistryOf E) → HoldsRead [] plain plain }
{}

/// If a reader gives one answer from a state at a path, there is one outcome of reading files in order, and one of
/// walking a folder, apart from out of memory: the same trees, the same end, and the same state of the reader.
/// `NoFiles` is such a reader.
pub fn one_reading<R: TemplateReader>()
    ensures files { GivesOneAnswer IsSameRead R.reads → (prevent_indent : Bool) (paths : List (Text × Text)) (before : R)
        → HasOneEnd (ReadsFiles R.reads prevent_indent paths before) }
    ensures folder { GivesOneAnswer IsSameRead R.reads → GivesOneAnswer IsSameList R.lists → (prevent_indent : Bool)
        (choice : FileFilter) (task : Walkable) (before : R)
        → HasOneEnd (Walks R.reads R.lists prevent_indent choice task before) }
    ensures no_files { GivesOneAnswer IsSameRead ⟦<NoFiles as TemplateReader>⟧.reads }
    ensures no_folders { GivesOneAnswer IsSameList ⟦<NoFiles as TemplateReader>⟧.lists }
{}

/// A number outside the range counts as null wherever it is: neither the text of a value, nor its truth, nor its
/// equality or order with another one, nor where names lead in it distinguishes it from what it counts as.
pub fn numbers_outside_range()
    ensures rendered { RendersCounted }
    ensures judged { JudgesCounted }
    ensures equal { EqualsCounted }
    ensures compared { ComparesCounted }
    ensures walked { WalksCounted }
{}
