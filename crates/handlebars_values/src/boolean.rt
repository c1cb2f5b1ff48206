//! What the boolean helpers and `len` evaluate to.

ghost use Rattle.std.specs.Prelude.{◌≡◌, ◌&&◌, ◌||◌, List, map};
ghost use Rattle.serde_json.specs.View.{view};
ghost use Rattle.handlebars_base.specs.PathAndData.{PathAndData};
ghost use Rattle.handlebars_helpers.specs.Boolean.{differ, greater, greater_or_equal, less, less_or_equal, size};
ghost use Rattle.handlebars_helpers.specs.CallView.{plain_value};
ghost use Rattle.handlebars_values.specs.BuiltIn.{test_name, truth_of};
ghost use Rattle.handlebars_values.specs.ChoiceView.{test_of};
ghost use Rattle.handlebars_values.specs.Truths.{ShowsTruths};

use handlebars_base::json::value::{Json, JsonTruthy, compare, equal};
use std::cmp::Ordering;

/// A test of two values.
#[derive(Clone, Copy)]
pub(crate) enum Test {
    Equal,
    Differ,
    Greater,
    GreaterOrEqual,
    Less,
    LessOrEqual,
}

impl Test {
    pub(crate) fn holds(self, left: &Json, right: &Json) -> bool
        ensures { result ≡ test_of self (view left.now) (view right.now) }
    {
        match self {
            Test::Equal => equal(left, right),
            Test::Differ => differ(left, right),
            Test::Greater => greater(left, right),
            Test::GreaterOrEqual => greater_or_equal(left, right),
            Test::Less => less(left, right),
            Test::LessOrEqual => less_or_equal(left, right),
        }
    }

    /// Returns the name of the helper that tests two values.
    pub(crate) fn name(self) -> &'static str
        ensures { result.now ≡ test_name self }
    {
        match self {
            Test::Equal => "eq",
            Test::Differ => "ne",
            Test::Greater => "gt",
            Test::GreaterOrEqual => "gte",
            Test::Less => "lt",
            Test::LessOrEqual => "lte",
        }
    }
}

// `ne`.
fn differ(left: &Json, right: &Json) -> bool
    ensures { result ≡ differ (view left.now) (view right.now) }
{
    !equal(left, right)
}

// `gt`.
fn greater(left: &Json, right: &Json) -> bool
    ensures { result ≡ greater (view left.now) (view right.now) }
{
    match compare(left, right) {
        Some(Ordering::Greater) => true,
        Some(Ordering::Less | Ordering::Equal) => false,
        None => false,
    }
}

// `gte`.
fn greater_or_equal(left: &Json, right: &Json) -> bool
    ensures { result ≡ greater_or_equal (view left.now) (view right.now) }
{
    match compare(left, right) {
        Some(Ordering::Greater | Ordering::Equal) => true,
        Some(Ordering::Less) => false,
        None => false,
    }
}

// `lt`.
fn less(left: &Json, right: &Json) -> bool
    ensures { result ≡ less (view left.now) (view right.now) }
{
    match compare(left, right) {
        Some(Ordering::Less) => true,
        Some(Ordering::Greater | Ordering::Equal) => false,
        None => false,
    }
}

// `lte`.
fn less_or_equal(left: &Json, right: &Json) -> bool
    ensures { result ≡ less_or_equal (view left.now) (view right.now) }
{
    match compare(left, right) {
        Some(Ordering::Less | Ordering::Equal) => true,
        Some(Ordering::Greater) => false,
        None => false,
    }
}

/// Whether all, and whether some, of the values so far count as true.
#[derive(Clone, Copy)]
pub(crate) struct Truths {
    pub(crate) all: bool,
    pub(crate) some: bool,
}

impl Truths {
    /// Returns what holds of values that a local helper passes.
    #[inline(always)]
    pub(crate) fn of(constants: &[Json]) -> Truths
        ensures { ShowsTruths (map (λ v. plain_value (view v)) constants.now) result }
    {
        let mut truths = Truths {
            all: true,
            some: false,
        };
        'constants: for constant in constants {
            truths = truths.and(constant.is_truthy(false));
        }
        truths
    }

    /// Returns what holds once there is one more value, which counts as true or not.
    pub(crate) fn and(self, truth: bool) -> Truths
        ensures all { result.all ≡ (self.all && truth) }
        ensures some { result.some ≡ (self.some || truth) }
    {
        Truths {
            all: self.all && truth,
            some: self.some || truth,
        }
    }

    /// Returns whether all count as true, or else whether some does.
    pub(crate) fn holds(self, all: bool) -> bool
        ensures { (ps : List PathAndData) → ShowsTruths ps self → result ≡ truth_of all ps }
    {
        if all { self.all } else { self.some }
    }
}

// The number of bytes of a string, or of members of an array or an object; 0 for any other value.
pub(crate) fn size(value: &Json) -> usize
    ensures { result ≡ size (view value.now) }
{
    match value {
        Json::Array(items) => items.len(),
        Json::Object(members) => members.len(),
        Json::String(text) => text.len(),
        Json::Null | Json::Bool(_) | Json::Number(_) => 0,
    }
}
