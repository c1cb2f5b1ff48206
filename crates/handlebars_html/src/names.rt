//! Names of elements and of attributes, in lowercase.

ghost use Rattle.std.specs.Prelude.{◌≡◌, Bool, List, map, codes};
ghost use Rattle.std.specs.Str.{bytes_eq};
ghost use Rattle.handlebars_html.specs.Ascii as ascii;
ghost use Rattle.handlebars_html.specs.Names as names;

const HARMLESS_ATTRIBUTES: [&str; 73] = [
    "abbr",
    "accept",
    "accesskey",
    "align",
    "alt",
    "autocomplete",
    "autofocus",
    "bgcolor",
    "border",
    "checked",
    "class",
    "color",
    "cols",
    "colspan",
    "coords",
    "datetime",
    "dir",
    "disabled",
    "download",
    "draggable",
    "enterkeyhint",
    "for",
    "form",
    "headers",
    "height",
    "hidden",
    "high",
    "hreflang",
    "id",
    "inputmode",
    "itemprop",
    "kind",
    "label",
    "lang",
    "list",
    "loading",
    "low",
    "max",
    "maxlength",
    "media",
    "min",
    "minlength",
    "multiple",
    "name",
    "nonce",
    "open",
    "optimum",
    "pattern",
    "placeholder",
    "readonly",
    "rel",
    "required",
    "reversed",
    "role",
    "rows",
    "rowspan",
    "scope",
    "selected",
    "size",
    "span",
    "spellcheck",
    "srclang",
    "start",
    "step",
    "summary",
    "tabindex",
    "title",
    "translate",
    "type",
    "valign",
    "value",
    "width",
    "wrap",
];

/// Returns whether the name is one of these.
pub fn is_one_of(names: &[&str], name: &[u8]) -> bool
    ensures { result ≡ ascii.is_one_of (map (λ n. n.now) names.now) name.now }
{
    match names.split_first() {
        None => false,
        Some((first, rest)) => first.as_bytes() == name || is_one_of(rest, name),
    }
}

/// Returns whether the content of the element is text with character references.
pub fn is_text_element(name: &[u8]) -> bool
    ensures { result ≡ ascii.is_one_of names.text_elements name.now }
{
    is_one_of(&["title", "textarea"], name)
}

/// Returns whether the content of the element is text without character references.
pub fn is_raw_text_element(name: &[u8]) -> bool
    ensures { result ≡ ascii.is_one_of names.raw_text_elements name.now }
{
    is_one_of(&["style", "xmp", "iframe", "noembed", "noframes"], name)
}

/// Returns whether the element has content of HTML within `svg`.
pub fn is_integration_point(name: &[u8]) -> bool
    ensures { result ≡ ascii.is_one_of names.integration_points name.now }
{
    is_one_of(&["foreignobject", "desc"], name)
}

/// Returns whether a script within the element, which isn't `svg`, may be read as markup.
pub fn is_foreign_element(name: &[u8]) -> bool
    ensures { result ≡ ascii.is_one_of names.foreign_elements name.now }
{
    is_one_of(&["math", "frameset"], name)
}

/// Returns whether attributes of the element load or run something.
pub fn is_active_element(name: &[u8]) -> bool
    ensures { result ≡ ascii.is_one_of names.active_elements name.now }
{
    is_one_of(
        &[
            "script",
            "style",
            "frame",
            "object",
            "embed",
            "applet",
            "base",
            "param",
            "set",
            "animate",
            "animatetransform",
            "animatemotion",
            "use",
            "portal",
        ],
        name,
    )
}

/// Returns whether what the address of the element leads to becomes a part of the page.
pub fn is_loading_element(name: &[u8]) -> bool
    ensures { result ≡ ascii.is_one_of names.loading_elements name.now }
{
    is_one_of(&["link", "iframe"], name)
}

/// Returns whether what the address of the element leads to is only shown or played.
pub fn is_showing_element(name: &[u8]) -> bool
    ensures { result ≡ ascii.is_one_of names.showing_elements name.now }
{
    is_one_of(&["img", "source", "video", "audio"], name)
}

fn is_harmless_name(name: &[u8]) -> bool
    ensures { result ≡ ascii.is_one_of names.harmless_attributes name.now }
{
    is_one_of(&HARMLESS_ATTRIBUTES, name)
}

fn is_drawing_attribute(name: &[u8]) -> bool
    ensures { result ≡ ascii.is_one_of names.drawing_attributes name.now }
{
    is_one_of(
        &[
            "cx",
            "cy",
            "d",
            "dx",
            "dy",
            "pathlength",
            "points",
            "r",
            "rx",
            "ry",
            "viewbox",
            "x",
            "x1",
            "x2",
            "y",
            "y1",
            "y2",
        ],
        name,
    )
}

fn is_custom_attribute(name: &[u8]) -> bool
    ensures { result ≡ names.is_custom_attribute name.now }
{
    name.starts_with("data-".as_bytes()) || name.starts_with("aria-".as_bytes())
}

/// Returns whether any text may stand in an attribute of this name.
pub fn is_harmless_attribute(name: &[u8]) -> bool
    ensures { result ≡ names.is_harmless_attribute name.now }
{
    is_harmless_name(name) || is_drawing_attribute(name) || is_custom_attribute(name)
}

fn is_passive_name(name: &[u8]) -> bool
    ensures { result ≡ ascii.is_one_of names.passive_attributes name.now }
{
    is_one_of(&["class", "dir", "id", "lang", "nonce", "title"], name)
}

/// Returns whether any text may stand in an attribute of this name, also of an active element.
pub fn is_passive_attribute(name: &[u8]) -> bool
    ensures { result ≡ names.is_passive_attribute name.now }
{
    is_passive_name(name) || is_custom_attribute(name)
}

/// Returns whether an attribute of this name holds an address that is followed or shown.
pub fn is_address_attribute(name: &[u8]) -> bool
    ensures { result ≡ ascii.is_one_of names.address_attributes name.now }
{
    is_one_of(
        &[
            "href",
            "src",
            "action",
            "formaction",
            "cite",
            "poster",
            "background",
            "longdesc",
        ],
        name,
    )
}

/// Returns whether an attribute of this name holds the address that a showing element shows.
pub fn is_shown_attribute(name: &[u8]) -> bool
    ensures { result ≡ ascii.is_one_of names.shown_attributes name.now }
{
    is_one_of(&["src", "poster"], name)
}

/// Returns whether an attribute of this name holds the address that a loading element loads.
pub fn is_loaded_attribute(name: &[u8]) -> bool
    ensures { result ≡ ascii.is_one_of names.loaded_attributes name.now }
{
    is_one_of(&["href", "src"], name)
}

/// Returns whether no address of the scheme runs a script.
pub fn is_followed_scheme(text: &[u8]) -> bool
    ensures { result ≡ ascii.is_one_of names.followed_schemes text.now }
{
    is_one_of(&["http", "https", "mailto", "tel", "ftp", "sms"], text)
}

/// Returns whether an address of the scheme loads from the host that it names.
pub fn is_loaded_scheme(text: &[u8]) -> bool
    ensures { result ≡ ascii.is_one_of names.loaded_schemes text.now }
{
    is_one_of(&["http", "https"], text)
}

fn is_name(written: &str, name: &[u8]) -> bool
    ensures { result ≡ bytes_eq written.now name.now }
{
    written.as_bytes() == name
}

/// Returns whether the name is `script`.
pub fn is_script(name: &[u8]) -> bool
    ensures { result ≡ bytes_eq (codes "script") name.now }
{
    is_name("script", name)
}

/// Returns whether the name is `svg`.
pub fn is_svg(name: &[u8]) -> bool
    ensures { result ≡ bytes_eq (codes "svg") name.now }
{
    is_name("svg", name)
}

/// Returns whether the name is `noscript`.
pub fn is_noscript(name: &[u8]) -> bool
    ensures { result ≡ bytes_eq (codes "noscript") name.now }
{
    is_name("noscript", name)
}

/// Returns whether the name is `plaintext`.
pub fn is_plaintext(name: &[u8]) -> bool
    ensures { result ≡ bytes_eq (codes "plaintext") name.now }
{
    is_name("plaintext", name)
}

/// Returns whether the name is `meta`.
pub fn is_meta(name: &[u8]) -> bool
    ensures { result ≡ bytes_eq (codes "meta") name.now }
{
    is_name("meta", name)
}

/// Returns whether the name is `rel`.
pub fn is_rel(name: &[u8]) -> bool
    ensures { result ≡ bytes_eq (codes "rel") name.now }
{
    is_name("rel", name)
}

/// Returns whether the name is `content`.
pub fn is_content(name: &[u8]) -> bool
    ensures { result ≡ bytes_eq (codes "content") name.now }
{
    is_name("content", name)
}

/// Returns whether the name is `http-equiv`.
pub fn is_http_equiv(name: &[u8]) -> bool
    ensures { result ≡ bytes_eq (codes "http-equiv") name.now }
{
    is_name("http-equiv", name)
}
