//! Laws of all runs, as lemmas over the definitions alone; they cite no code. `handlebars` states them of its settings, as
//! `laws_of_runs`.
#![tactic(auto)]
