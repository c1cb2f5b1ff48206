//! The variables of a scope frame.

ghost use Rattle.std.specs.Prelude.{◌≡◌, IfOk, OnErr, OnOk, option_map};
ghost use Rattle.serde_json.specs.View.{view};
ghost use Rattle.handlebars_scope.specs.Scopes.{nothing_at, put_at};
ghost use Rattle.handlebars_scope.specs.ScopeView.{variables_of};

use handlebars_base::json::value::Json;
use std::alloc::{AllocError, Global};
use std::collections::BTreeMap;

/// The variables of a block by name, without the `@` that templates write before it.
pub struct LocalVars {
    by_name: BTreeMap<String, Json>,
    alloc: Global,
}

// Not derived, so that each drop of one is a single call.
impl Drop for LocalVars {
    fn drop(self) {
        let LocalVars {
            by_name: _,
            alloc: _,
        } = self;
    }
}

impl LocalVars {
    /// Creates an empty set of variables.
    pub fn new(alloc: Global) -> LocalVars
        ensures { variables_of result ≡ nothing_at }
    {
        LocalVars {
            by_name: BTreeMap::new(alloc),
            alloc,
        }
    }

    /// Returns the variable of this name, if it is set.
    pub fn get(&self, key: &str) -> Option<&Json>
        ensures { option_map (λ v. view v.now) result ≡ variables_of self.now key.now }
    {
        self.by_name.get(key)
    }

    /// Sets a variable, replacing one of this name.
    ///
    /// # Errors
    ///
    /// Fails if memory runs out. Then nothing is changed.
    pub fn put(&mut self, key: &str, value: Json) -> Result<(), AllocError>
        ensures ok { OnOk result (variables_of self.new ≡ put_at key.now (view value) (variables_of self.old)) }
        ensures err { OnErr result (variables_of self.new ≡ variables_of self.old) }
    {
        let name = String::from_str(self.alloc, key)?;
        self.by_name.insert(name, value)?;
        Ok(())
    }

    /// Returns a copy of the variables.
    ///
    /// # Errors
    ///
    /// Fails if memory runs out.
    pub fn clone(&self) -> Result<LocalVars, AllocError>
        ensures { IfOk result (λ copy. variables_of copy ≡ variables_of self.now) }
    {
        let by_name = self.by_name.clone()?;
        Ok(LocalVars {
            by_name,
            alloc: self.alloc,
        })
    }
}
