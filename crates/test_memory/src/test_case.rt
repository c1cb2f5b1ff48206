//! Test cases: the template, the data and the expected result.

/// A template, the data that it is rendered with, and what is expected.
pub struct TestCase {
    pub name: &'static str,
    /// A partial that is registered: its name and its source.
    pub partial: Option<(&'static str, &'static str)>,
    pub source: &'static str,
    /// The data, in JSON.
    pub data: &'static str,
    pub strict: bool,
    /// The text that is written, all of it or up to the error.
    pub text: &'static str,
    /// The printed reason of the expected error, its line and its column, if there is one.
    pub refusal: Option<(&'static str, usize, usize)>,
    /// Whether the source is rejected.
    pub unread: bool,
}

/// Returns the test case of that name, if there is one.
pub fn test_case_named(name: &str) -> Option<&'static TestCase> {
    for test_case in &TEST_CASES {
        if test_case.name == name {
            return Some(test_case);
        }
    }
    None
}

/// The defaults of a test case.
pub const PLAIN: TestCase = TestCase {
    name: "",
    partial: None,
    source: "",
    data: "null",
    strict: false,
    text: "",
    refusal: None,
    unread: false,
};

/// All test cases.
pub static TEST_CASES: [TestCase; 20] = [
    TestCase {
        name: "escaped",
        source: "{{x}}|{{{x}}}",
        data: r#"{"x":"<a href='x'>&`=\"_"}"#,
        text: "&lt;a href&#x3D;&#x27;x&#x27;&gt;&amp;&#x60;&#x3D;&quot;_|<a href='x'>&`=\"_",
        ..PLAIN
    },
    TestCase {
        name: "chain",
        source: "{{#if a}}1{{else if b}}2{{else if c}}3{{else if d}}4{{else}}0{{/if}}",
        data: r#"{"c":1,"d":1}"#,
        text: "3",
        ..PLAIN
    },
    TestCase {
        name: "partial",
        partial: Some(("p", "x\ny\n")),
        source: "a\n  {{> p}}\nb",
        text: "a\n  x\n  y\nb",
        ..PLAIN
    },
    TestCase {
        name: "inline",
        source: "{{#each this}}{{#if @first}}{{#*inline \"p\"}}A{{/inline}}{{/if}}{{> p}}{{/each}}",
        data: "[1,2]",
        text: "AA",
        ..PLAIN
    },
    TestCase {
        name: "layout",
        partial: Some(("layout", "<b>{{> @partial-block}}</b>")),
        source: "{{#> layout}}{{x}}{{/layout}}",
        data: r#"{"x":"<"}"#,
        text: "<b>&lt;</b>",
        ..PLAIN
    },
    TestCase {
        name: "decorator",
        source: "{{hello}}{{*foo}}{{hello}}",
        data: r#"{"hello":"world"}"#,
        text: "worldwar",
        ..PLAIN
    },
    TestCase {
        name: "members",
        source: "{{#each a as |v k|}}{{k}}{{v}};{{/each}}",
        data: r#"{"a":{"x":1,"b":2}}"#,
        text: "b2;x1;",
        ..PLAIN
    },
    TestCase {
        name: "body_twice",
        source: "{{#twice}}a{{/twice}}",
        text: "aa",
        ..PLAIN
    },
    TestCase {
        name: "all_kinds",
        partial: Some(("p", "[{{who}}{{n}}]")),
        source: r#"{{#each a}}{{@index}}{{#each this}}{{this}}{{/each}};{{/each}}{{#with o}}{{b.c}}{{../s}}{{/with}}{{len s}}{{> p who=s n=n}}{{lookup a.[0] 1}}{{gt n 1}}{{#if (eq s "x")}}y{{else}}n{{/if}}{{#unless t}}u{{else}}{{n}}{{/unless}}{{len [1,"a",{"k":null}]}}{{{{raw}}}}{{x}}{{{{/raw}}}}{{{s}}}{{&s}}{{#t}}z{{/t}}{{!-- c --}}{{> (lookup names 0) who=1}}{{log s}}"#,
        data: r#"{"a":[[1,2],[3]],"o":{"b":{"c":"d"}},"s":"é<","n":7,"t":true,"names":["p"]}"#,
        text: "012;13;dé&lt;3[é&lt;7]2truen73{{x}}é<é<z[17]",
        ..PLAIN
    },
    TestCase {
        name: "recursion",
        partial: Some(("p", "{{n}}{{#each k}}{{> p}}{{/each}}")),
        source: "{{> p}}",
        data: r#"{"n":1,"k":[{"n":2,"k":[{"n":3}]},{"n":4}]}"#,
        text: "1234",
        ..PLAIN
    },
    TestCase {
        name: "pieces",
        partial: Some(("page", "<ul>\n{{> @partial-block}}</ul>\n")),
        source: concat!(
            "{{#*inline \"item\"}}\n{{this}}{{#steps}}!{{/steps}}\n{{eq this 8}}\n{{/inline}}\n",
            "{{#> page}}\n{{#each @root.a}}\n{{#each this}}\n{{{this}}}\n  {{> item}}\n{{/each}}\n{{/each}}\n{{/page}}",
        ),
        data: r#"{"a":[[7,8],[9]]}"#,
        text: "<ul>\n7\n  7<!!\nfalse\n8\n  8<!!\ntrue\n9\n  9<!!\nfalse\n</ul>\n",
        ..PLAIN
    },
    TestCase {
        name: "no_helper",
        source: "a{{none 1}}",
        text: "a",
        refusal: Some(("Helper not found none", 1, 2)),
        ..PLAIN
    },
    TestCase {
        name: "no_index",
        source: "a{{#each a}}{{x}}{{/each}}",
        data: r#"{"a":[[1]]}"#,
        text: "a",
        refusal: Some(("Cannot access array/vector with string index, x", 1, 13)),
        ..PLAIN
    },
    TestCase {
        name: "no_variable",
        source: "a{{x}}",
        data: "{}",
        strict: true,
        text: "a",
        refusal: Some(("Failed to access variable in strict mode Some(\"x\")", 1, 2)),
        ..PLAIN
    },
    TestCase {
        name: "no_partial",
        source: "a{{> nope}}",
        text: "a",
        refusal: Some(("Partial not found nope", 1, 2)),
        ..PLAIN
    },
    TestCase {
        name: "no_decorator",
        source: "a{{*nope}}",
        text: "a",
        refusal: Some(("Decorator not found nope", 1, 2)),
        ..PLAIN
    },
    TestCase {
        name: "no_parameter",
        source: "ab{{len}}c",
        data: r#"{"len":5}"#,
        text: "ab",
        refusal: Some((
            "Helper/Decorator len param with name x required but not found",
            1,
            3,
        )),
        ..PLAIN
    },
    TestCase {
        name: "no_level",
        source: "a{{log 1 level=\"loud\"}}",
        text: "a",
        refusal: Some(("Invalid logging level: loud", 1, 2)),
        ..PLAIN
    },
    TestCase {
        name: "unreadable",
        source: "ab{{name",
        refusal: Some(("invalid handlebars syntax: unreadable tag", 1, 3)),
        unread: true,
        ..PLAIN
    },
    TestCase {
        name: "mismatch",
        source: "{{#if a}}x{{/unless}}",
        refusal: Some(("helper \"if\" was opened, but \"unless\" is closing", 1, 11)),
        unread: true,
        ..PLAIN
    },
];
