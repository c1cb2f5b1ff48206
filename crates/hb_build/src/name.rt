//! The names of files.

ghost use Rattle.std.specs.Prelude.{◌↔◌, IsTrue};
ghost use Rattle.hb_build.specs.Name.{IsAcceptable, IsPart};

/// Returns whether a file may have this name: whether it is a relative path that leads nowhere out of its folder.
///
/// The parts of the name stand between one `/` and the next. None is empty, `.` or `..`, and none contains a NUL. So a name
/// neither begins nor ends with `/`. Nothing else is refused. Runs in linear time.
pub fn is_acceptable(name: &str) -> bool
    ensures { IsTrue result ↔ IsAcceptable name.now }
{
    name.split('/').all(is_part)
}

fn is_part(part: &str) -> bool
    ensures { IsTrue result ↔ IsPart part.now }
{
    part != "" && part != "." && part != ".." && !part.as_bytes().contains(&0)
}
