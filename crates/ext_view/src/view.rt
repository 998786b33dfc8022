// The host with another view.
ghost use Rattle.std.specs.Prelude.{◌≡◌, IfOk};
ghost use Rattle.ext_view.specs.View.{with_view};

use ext_host::{Held, Host, copy_of_merged};
use ext_text::{Extension, Names, OutOfMemory};
use ext_tree::Tree;
use std::alloc::Global;

// The host with these trees, and with these names for the class; all else is copied.
pub(crate) fn with_view(
    alloc: Global,
    host: &Host,
    class: Extension,
    names: Option<Names>,
    root: Tree<Held>,
    lower: Tree<Held>,
) -> Result<Host, OutOfMemory>
    ensures { IfOk result (λ next. next ≡ with_view class names root lower host.now) }
{
    match class {
        Extension::Sysext => {
            let confext = copy_of_merged(alloc, &host.confext)?;
            host.with_trees(root, lower, names, confext)
        }
        Extension::Confext => {
            let sysext = copy_of_merged(alloc, &host.sysext)?;
            host.with_trees(root, lower, sysext, names)
        }
    }
}
