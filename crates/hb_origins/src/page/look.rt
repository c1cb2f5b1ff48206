//! What all pages have: how they look, what keys do, and the legend.

/// The page up to the policy of what it may load and run.
pub const HEAD: &str = r#"<!DOCTYPE html>
<html lang="en">
<head>
<meta charset="utf-8">
<meta name="viewport" content="width=device-width, initial-scale=1">
<meta http-equiv="Content-Security-Policy" content="default-src 'none'; style-src 'sha256-"#;

/// Ends the policy. A page loads nothing, and runs no script but `SCRIPT`.
pub const POLICY_END: &str = r#"'">
<title>Origins of "#;

/// Between the hashes of `STYLE` and of `SCRIPT` in the policy.
pub const POLICY: &str = "'; script-src 'sha256-";

/// The SHA-256 of `STYLE` in base 64.
pub const STYLE_HASH: &str = "0uqEQEpPjue2QmfZ6vjFvHxKjok7lMjZkmHNaz5ZnVk=";

/// The SHA-256 of `SCRIPT` in base 64.
pub const SCRIPT_HASH: &str = "7pkYKr5pyFwnS0KGUd0J7qu3hMAB/EliwBOdKJ1va/c=";

/// Each template has its own hue, which the script sets, and each kind its own underline.
pub const STYLE: &str = r#"
:root { color-scheme: light dark; --paper: #fff; --ink: #1a1a1a; --tint: 91%; --edge: 68%; --line: 32%; --focus: #0047b3; --alarm: #a00000; }
@media (prefers-color-scheme: dark) {
  :root { --paper: #161616; --ink: #f2f2f2; --tint: 21%; --edge: 42%; --line: 76%; --focus: #9cc7ff; --alarm: #ff9d9d; }
}
html { scroll-padding: 2em 0 9em; }
body { margin: 1.5em 1.5em 9em; background: var(--paper); color: var(--ink); font-family: sans-serif; line-height: 1.5; }
h1 { font-size: 1.3em; }
h2 { font-size: 1em; margin: 0; }
pre, #origin, .error { white-space: pre-wrap; overflow-wrap: anywhere; font-family: monospace; }
pre { line-height: 2; border-top: 1px solid; padding-top: 1em; }
pre > span, .legend span {
  --hued: hsl(var(--hue, 0) var(--full, 0%) var(--line));
  background: hsl(var(--hue, 0) var(--full, 0%) var(--tint));
  border-left: 1px solid hsl(var(--hue, 0) var(--full, 0%) var(--edge));
  text-decoration: none 2px var(--hued);
  text-underline-offset: 4px;
}
.legend { display: flex; flex-wrap: wrap; gap: 0.3em 1.5em; margin: 0.3em 0 1em; padding: 0; list-style: none; }
.legend span { font-family: monospace; padding: 0.1em 0.3em; overflow-wrap: anywhere; }
pre > .indentation, .legend .indentation { text-decoration-line: underline; text-decoration-style: dotted; }
pre > .value, .legend .value { text-decoration-line: underline; text-decoration-style: solid; }
pre > .raw, .legend .raw { text-decoration-line: underline; text-decoration-style: double; text-decoration-color: var(--alarm); }
pre > .word, .legend .word { text-decoration-line: underline; text-decoration-style: dashed; }
pre > .own, .legend .own { text-decoration-line: underline; text-decoration-style: wavy; text-decoration-color: var(--alarm); }
pre > .blank { padding-left: 0.5em; }
@media screen {
  pre > span:hover { outline: 1px solid var(--focus); }
  pre > span:focus { outline: 2px solid var(--focus); background: var(--focus); color: var(--paper); text-decoration-color: currentColor; }
}
#origin, pre > span:focus::after {
  position: fixed; right: 0; bottom: 0; left: 0; max-height: 7em; overflow: auto; box-sizing: border-box; margin: 0; padding: 0.7em 1.5rem;
  background: var(--paper); color: var(--ink); border-top: 3px solid var(--focus); line-height: 1.5;
}
pre > span:focus::after { content: attr(title); }
.scripted pre > span:focus::after { content: none; }
.error { color: var(--alarm); border: 2px solid; padding: 0.5em; }
[hidden] { display: none !important; }
@media print {
  :root { --paper: #fff; --ink: #000; --edge: 55%; --line: 36%; --alarm: #a00000; }
  body { margin: 0; }
  pre { line-height: 2.2; }
  pre > span, .legend span { background: none; border-top: 3px solid var(--hued); }
  pre > span:focus { outline: none; }
  #origin, pre > span:focus::after, .usage { display: none; }
  .legend { break-inside: avoid; }
}
"#;

/// Gives each template its hue and its place in the legend, and moves from piece to piece by keys. It makes no markup of texts.
pub const SCRIPT: &str = r#"
"use strict";
addEventListener("DOMContentLoaded", () => {
  const pieces = Array.from(document.querySelectorAll("pre > span"));
  const panel = document.getElementById("origin");
  const legend = document.getElementById("templates");

  const setHue = (element, index) => {
    element.style.setProperty("--hue", (210 + index * 137.5) % 360);
    element.style.setProperty("--full", "70%");
  };

  const added = (parent, tag, text) => {
    const element = document.createElement(tag);
    element.textContent = text;
    return parent.appendChild(element);
  };

  const templates = new Map();
  for (const piece of pieces) {
    const name = piece.dataset.template;
    if (!templates.has(name)) {
      templates.set(name, templates.size);
      setHue(added(added(legend, "li", ""), "span", name ?? "an inline partial"), templates.get(name));
    }
    setHue(piece, templates.get(name));
  }
  document.getElementById("of-templates").hidden = pieces.length === 0;
  document.documentElement.classList.add("scripted");

  const show = (index) => {
    const text = JSON.stringify(pieces[index].textContent);
    panel.replaceChildren();
    added(panel, "strong", pieces[index].title);
    added(panel, "div", `Piece ${index + 1} of ${pieces.length}`);
    added(panel, "code", text.length > 400 ? text.slice(0, 400) + " .." : text);
    panel.hidden = false;
  };

  const at = () => pieces.indexOf(document.activeElement);

  const next = { ArrowRight: 1, ArrowDown: 1, j: 1, ArrowLeft: -1, ArrowUp: -1, k: -1 };

  // The piece that a key leads to from this one, which is -1 where none is selected. The arrows then scroll, as they do elsewhere.
  const target = (key, from) => {
    if (key === "Home") return from < 0 ? undefined : 0;
    if (key === "End") return from < 0 ? undefined : pieces.length - 1;
    if (!(key in next) || (from < 0 && key.length > 1)) return undefined;
    return from < 0 ? 0 : Math.min(Math.max(from + next[key], 0), pieces.length - 1);
  };

  addEventListener("keydown", (event) => {
    if (event.ctrlKey || event.altKey || event.metaKey) return;
    const from = at();
    const to = target(event.key, from);
    if (to !== undefined && pieces[to]) {
      event.preventDefault();
      pieces[to].focus();
    } else if (event.key === "Enter" && from >= 0) {
      show(from);
    } else if (event.key === "Escape") {
      if (from >= 0) pieces[from].blur();
      panel.hidden = true;
    }
  });
  addEventListener("focusin", () => {
    if (at() >= 0) show(at());
  });
});
"#;

/// The legend and what keys do, up to the pieces. The script fills in the templates.
pub const LEGEND: &str = r#"</h1>
<p class="usage">Select a piece to see where it comes from: by a click, by Tab, or by j. Then the arrow keys, j and k lead to the next piece
and back, Home and End to the first and the last one, and Escape leaves.</p>
<h2>Underlines: what a piece is</h2>
<ul class="legend">
<li><span class="text">text</span> a text of a template</li>
<li><span class="indentation">indentation</span> that of a partial call</li>
<li><span class="value">value</span> a value, escaped</li>
<li><span class="raw">raw</span> a value, as it is</li>
<li><span class="word">word</span> true or false of a helper</li>
<li><span class="own">own</span> a text of a user-defined helper</li>
</ul>
<div id="of-templates" hidden>
<h2>Colours: the templates</h2>
<ul class="legend" id="templates"></ul>
</div>
<pre>"#;

/// After the pieces: the panel that shows an origin.
pub const PANEL: &str = r#"</pre>
<div id="origin" role="status" hidden></div>
"#;
