// The host without the view of a class.
ghost use Rattle.std.specs.Prelude.{◌≡◌, true, IfOk};
ghost use Rattle.ext_host.specs.Planning.{IsPlannedHost, PlansNext};
ghost use Rattle.ext_host.specs.Valid.{IsValidHost};
ghost use Rattle.ext_view.specs.Hierarchies.{is_merged};
ghost use Rattle.ext_view.specs.Merging.{Unmerges};
ghost use Rattle.ext_view.specs.View.{IsUnmerged};

use crate::hierarchies::{hierarchies_of, is_merged};
use crate::inside::copies_inside;
use crate::replaced::replaced;
use crate::view::with_view;
use ext_host::{Host, Plan};
use ext_text::{Extension, OutOfMemory};
use ext_tree::Tree;
use std::alloc::Global;

/// The plan of the unmerged host: at and below the hierarchies of the class the base is seen again, and the class has no
/// names. `None` exactly where the class is not merged.
///
/// # Errors
/// `OutOfMemory` alone.
pub fn unmerge(alloc: Global, host: &Host, class: Extension) -> Result<Option<Plan>, OutOfMemory>
    requires { IsValidHost host.now }
    ensures gives { Unmerges host.now class result }
    ensures next { IfOk result (PlansNext host.now) }
{
    if is_merged(host, class) {
        let next = unmerged(alloc, host, class)?;
        Ok(Some(Plan { next }))
    } else {
        Ok(None)
    }
}

// The unmerged host.
fn unmerged(alloc: Global, host: &Host, class: Extension) -> Result<Host, OutOfMemory>
    requires valid { IsValidHost host.now }
    requires merged { is_merged class host.now ≡ true }
    ensures unmerged { IfOk result (IsUnmerged host.now class) }
    ensures next { IfOk result (IsPlannedHost host.now) }
{
    let hierarchies = hierarchies_of(host, class).as_slice();
    let base = copies_inside(alloc, hierarchies, 0, host.lower.pairs())?;
    let root = replaced(alloc, hierarchies, host.root.pairs(), base)?;
    let lower = replaced(alloc, hierarchies, host.lower.pairs(), Vec::new(alloc))?;
    let root = Tree::from_pairs(root);
    let lower = Tree::from_pairs(lower);
    with_view(alloc, host, class, None, root, lower)
}
