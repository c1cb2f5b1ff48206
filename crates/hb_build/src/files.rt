//! Where the files are written.

ghost use Rattle.std.specs.Prelude.{◌≡◌, ◌↔◌, ℕ, List, IfErr, IfOk, IsTrue, OnErr, OnOk};
ghost use Rattle.std.specs.declared.io.Error.{Error};
ghost use Rattle.hb_build.specs.Entries.{Entries, AreSame, HasFolders, Puts, file, folder, nothing, standing};
ghost use Rattle.hb_build.specs.Name.{IsAcceptable};

use std::io;

/// What stands at a path.
#[derive(Clone, Copy, Debug, PartialEq, Eq)]
pub enum Standing {
    Nothing,
    File,
    Folder,
    /// A link, a device or the like. A link is never followed.
    Other,
}

/// A place for files: a map from paths to what stands there. A path is relative, with `/` between its parts.
///
/// A method that fails leaves the map as it was. `build` passes only paths that `is_acceptable` accepts, makes the folders of a
/// file before the file, and looks at the outer folders before the inner ones.
pub trait Store {
    // What stands at each path.
    ghost entries: { Self → Entries };

    // Up to this state each call did and answered what this trait says, and nobody else changed the store. Where nothing can be
    // known of that, as of a disk, no state is reliable.
    ghost reliable: { Self → Type 0 };

    // The errors that a call may return: any, if the store doesn't restrict them.
    ghost may_give: { Error → Type 0 } = { λ _. Unit {0} };

    /// Returns what stands at a path. A link at the path itself is `Standing::Other`, wherever it leads.
    fn look(&mut self, path: &str) -> io::Result<Standing>
        requires { IsAcceptable path.now }
        ensures answer { IfOk result (λ found. reliable self.new → found ≡ standing (entries self.old path.now)) }
        ensures given { IfErr result may_give }
        ensures same { reliable self.new → AreSame (entries self.old) (entries self.new) }
        ensures was { reliable self.new → reliable self.old };

    /// Returns whether a file has this text, byte for byte.
    fn has_text(&mut self, path: &str, text: &str) -> io::Result<bool>
        requires { IsAcceptable path.now }
        ensures answer { IfOk result (λ same. reliable self.new → IsTrue same ↔ (entries self.old path.now ≡ file text.now)) }
        ensures given { IfErr result may_give }
        ensures same { reliable self.new → AreSame (entries self.old) (entries self.new) }
        ensures was { reliable self.new → reliable self.old };

    /// Makes a file hold this text. Its folders are there. The text is written to a file beside it, which is then renamed, so
    /// that at any moment the path holds what it held before or the whole text.
    fn replace(&mut self, path: &str, text: &str) -> io::Result<()>
        requires acceptable { IsAcceptable path.now }
        requires folders { reliable self.old → HasFolders (entries self.old) path.now }
        ensures put { OnOk result (reliable self.new → Puts path.now (file text.now) (entries self.old) (entries self.new)) }
        ensures given { IfErr result may_give }
        ensures same { OnErr result (reliable self.new → AreSame (entries self.old) (entries self.new)) }
        ensures was { reliable self.new → reliable self.old };

    /// Makes a folder where nothing stands. The folders that contain it are there. Succeeds if somebody else has just made it.
    fn make_folder(&mut self, path: &str) -> io::Result<()>
        requires acceptable { IsAcceptable path.now }
        requires free { reliable self.old → entries self.old path.now ≡ nothing }
        requires folders { reliable self.old → HasFolders (entries self.old) path.now }
        ensures put { OnOk result (reliable self.new → Puts path.now folder (entries self.old) (entries self.new)) }
        ensures given { IfErr result may_give }
        ensures same { OnErr result (reliable self.new → AreSame (entries self.old) (entries self.new)) }
        ensures was { reliable self.new → reliable self.old };
}
