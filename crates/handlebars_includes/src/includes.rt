//! Which templates include which.

ghost use Rattle.std.specs.List.{list_any};
ghost use Rattle.std.specs.Prelude.{◌≡◌, ℕ, ◌++◌, List, IfOk, OnOk, map};
ghost use Rattle.std.specs.BTreeMap.{get_by};
ghost use Rattle.std.specs.Cmp.Lexicographic.{slice_cmp};
ghost use Rattle.std.specs.Ordering.{nat_cmp};
ghost use Rattle.handlebars_includes.specs.Graph as graph;
ghost use Rattle.handlebars_includes.specs.View.{graph_view, inclusion_view, mention_of, name_of, replaced_of, tree_of};

use crate::index::index;
use crate::mention::{Mention, mentions};
use crate::template::NamedTemplate;
use handlebars_template::template::{Template, TemplateMapping};
use std::alloc::{AllocError, Global};
use std::collections::BTreeMap;

/// A partial call of a template, by its name.
#[derive(Clone, Copy)]
pub struct Inclusion {
    /// The index of the template that is included.
    pub target: usize,
    /// The position of the tag.
    pub position: Option<TemplateMapping>,
    /// Whether the tag is always rendered when its template is.
    pub always: bool,
}

/// The inclusions of each template.
#[derive(Drop)]
pub struct Includes {
    pub(crate) graph: Vec<Vec<Inclusion>>,
    // Whether an inline partial may take the place of a template.
    pub(crate) replaced: bool,
}

fn add_inclusion(
    mention: Mention<'_>,
    index: &BTreeMap<&str, usize>,
    inclusions: &mut Vec<Inclusion>,
) -> Result<(), AllocError>
    ensures { OnOk result ((names : List (List ℕ))
        → ((n : List ℕ) → get_by (λ k. slice_cmp nat_cmp n k.now) index.now ≡ graph.index_of names n)
        → map inclusion_view inclusions.new.items
        ≡ map inclusion_view inclusions.old.items ++ graph.inclusion_in names (mention_of mention.entry)) }
{
    match mention {
        Mention::Includes(name, position, always) => {
            if let Some(target) = index.get(name) {
                inclusions.push(Inclusion {
                    target: *target,
                    position,
                    always,
                })?;
            }
            Ok(())
        }
        Mention::Sets(_) => Ok(()),
    }
}

fn inclusions_of(
    alloc: Global,
    mentions: &[Mention<'_>],
    index: &BTreeMap<&str, usize>,
) -> Result<Vec<Inclusion>, AllocError>
    ensures { IfOk result (λ v. (names : List (List ℕ))
        → ((n : List ℕ) → get_by (λ k. slice_cmp nat_cmp n k.now) index.now ≡ graph.index_of names n)
        → map inclusion_view v.items ≡ graph.inclusions_of names (map mention_of mentions.now)) }
{
    let mut inclusions = Vec::new(alloc);
    'mentions: for mention in mentions {
        add_inclusion(*mention, index, &mut inclusions)?;
    }
    Ok(inclusions)
}

fn replaces(mention: Mention<'_>, index: &BTreeMap<&str, usize>) -> bool
    ensures { (names : List (List ℕ))
        → ((n : List ℕ) → get_by (λ k. slice_cmp nat_cmp n k.now) index.now ≡ graph.index_of names n)
        → result ≡ graph.replaces names (mention_of mention.entry) }
{
    match mention {
        Mention::Includes(_, _, _) => false,
        Mention::Sets(Some(name)) => index.get(name).is_some(),
        Mention::Sets(None) => true,
    }
}

fn any_replaces(mentions: &[Mention<'_>], index: &BTreeMap<&str, usize>) -> bool
    ensures { (names : List (List ℕ))
        → ((n : List ℕ) → get_by (λ k. slice_cmp nat_cmp n k.now) index.now ≡ graph.index_of names n)
        → result ≡ list_any (graph.replaces names) (map mention_of mentions.now) }
{
    let mut found = false;
    'mentions: for mention in mentions {
        found = found | replaces(*mention, index);
    }
    found
}

impl Includes {
    /// Returns the inclusions of each template. A template is named by its index. A partial call whose name no template has is
    /// no inclusion, nor is `@partial-block`.
    ///
    /// Runs in time linear in the templates, and logarithmic in their number for each partial call.
    ///
    /// # Errors
    ///
    /// Fails if memory runs out.
    pub fn of(alloc: Global, templates: &[NamedTemplate<'_>]) -> Result<Includes, AllocError>
        ensures graph { IfOk result (λ x. graph_view x ≡ graph.graph_of (map name_of templates.now) (map tree_of templates.now)) }
        ensures replaced { IfOk result (λ x. replaced_of x ≡ graph.are_replaced (map name_of templates.now) (map tree_of templates.now)) }
    {
        let index = index(alloc, templates)?;
        let mut graph = Vec::new(alloc);
        let mut replaced = false;
        'templates: for named in templates {
            let mentions = mentions(alloc, named.template)?;
            graph.push(inclusions_of(alloc, &mentions, &index)?)?;
            replaced = replaced | any_replaces(&mentions, &index);
        }
        Ok(Includes { graph, replaced })
    }
}
