// The command `import-fs`.
ghost use Rattle.std.specs.Prelude.{◌≡◌, IfOk, IfErr, MatchOption};
ghost use Rattle.std.specs.Option.{option_copied};
ghost use Rattle.ext_depot.specs.Depot.{IsKept};
ghost use Rattle.ext_depot.specs.declared.depot_text.DepotText.TheVariants.{Whole};
ghost use Rattle.ext_tree.specs.Graft.{IsOpen, is_non_directory_at};
ghost use Rattle.ext_host.specs.Valid.{IsValidHost};
ghost use Rattle.ext_cmd.specs.declared.refusal.Refusal.TheVariants.{Limit};
ghost use Rattle.ext_intents.specs.DepotErr.{PlanCause};
ghost use Rattle.ext_intents.specs.Import.{FittingImportWants, ImportWants, IsUnder, PartWants, TextWants, TreeWants, sized};
ghost use Rattle.ext_intents.specs.declared.intent.Intent.TheVariants.{Refuses};

use crate::intent::Intent;
use crate::plan_err::PlanErr;
use ext_cmd::{Answer, Refusal, Resource};
use ext_depot::{Depot, DepotText, read_depot_text};
use ext_host::{Held, Host, from_depot, passed_limit, read_only_at};
use ext_text::{OutOfMemory, Path, Text, Which};
use ext_tree::{Entry, Stamp, Tree, TreeErr, TreeTextErr, read_tree};
use std::alloc::Global;

/// What `import-fs` wants of a host, by what the depot has.
///
/// # Errors
/// A fault of the depot, only where it counted one, and out of memory.
pub(crate) fn import_step<P: Depot>(
    alloc: Global,
    host: &Host,
    resource: &Resource,
    path: &Path,
    depot: &mut P,
) -> Result<Intent, PlanErr>
    requires { IsValidHost host.now }
    ensures wants { IfOk result (ImportWants host.now (P.state depot.old).contents resource.now path.now) }
    ensures kept { IsKept (P.state depot.old) (P.state depot.new) }
    ensures cause { IfErr result (PlanCause (P.state depot.old).faults (P.state depot.new).faults) }
{
    let found = read_depot_text(alloc, depot, resource.tree_text())?;
    Ok(import_text(alloc, host, resource, path, found)?)
}

// What it wants, by what was found at the path of the tree text.
fn import_text(
    alloc: Global,
    host: &Host,
    resource: &Resource,
    path: &Path,
    found: DepotText,
) -> Result<Intent, OutOfMemory>
    requires { IsValidHost host.now }
    ensures { IfOk result (TextWants host.now resource.now path.now found) }
{
    match found {
        DepotText::Absent => {
            let path = resource.tree_text().copy()?;
            Ok(Intent::Refuses(Refusal::NotInDepot { path }))
        }
        DepotText::TooLong => Ok(limit(Which::Text)),
        DepotText::Whole(text) => import_whole(alloc, host, resource, path, &text),
    }
}

// What it wants, by the bytes of the tree text.
fn import_whole(
    alloc: Global,
    host: &Host,
    resource: &Resource,
    path: &Path,
    text: &Text,
) -> Result<Intent, OutOfMemory>
    requires { IsValidHost host.now }
    ensures { IfOk result (TextWants host.now resource.now path.now (Whole text.now)) }
{
    match read_tree(alloc, text.bytes()) {
        Ok(tree) => import_tree(alloc, host, resource.path(), path, tree),
        Err(TreeTextErr::OutOfMemory) => Err(OutOfMemory),
        Err(TreeTextErr::BadTree { line }) => {
            let path = Some(resource.tree_text().copy()?);
            Ok(Intent::Refuses(Refusal::BadTree { line, path }))
        }
    }
}

// What it wants, by the tree.
fn import_tree(
    alloc: Global,
    host: &Host,
    resource: &Path,
    path: &Path,
    tree: Tree<Stamp>,
) -> Result<Intent, OutOfMemory>
    requires { IsValidHost host.now }
    ensures { IfOk result (TreeWants host.now resource.now path.now tree) }
{
    if host.locks(path) {
        let path = read_only_at(host, path)?;
        return Ok(Intent::Refuses(Refusal::ReadOnly { path }));
    }
    match non_directory_above(&host.root, path)? {
        Some(path) => Ok(Intent::Refuses(Refusal::NotDirectory { path })),
        None => import_open(alloc, host, resource, path, tree),
    }
}

// The path of an entry that is no directory and above the path, if there is one.
fn non_directory_above(tree: &Tree<Held>, path: &Path) -> Result<Option<Path>, OutOfMemory>
    ensures { IfOk result (λ found. MatchOption found (IsOpen tree.now path.now) (IsUnder tree.now path.now)) }
{
    let names = path.names();
    'counts: for count in 0..names.depth() {
        let first = names.prefix(count);
        if is_non_directory(tree.entry_at(&first)) {
            let above = path.prefix(count)?;
            return Ok(Some(above));
        }
    }
    Ok(None)
}

// Whether an entry that is no directory stands there.
fn is_non_directory(entry: Option<&Entry<Held>>) -> bool
    ensures { result ≡ is_non_directory_at (option_copied entry.entry) }
{
    match entry {
        None => false,
        Some(entry) => !entry.is_directory(),
    }
}

// What it wants, where nothing but directories is above the path, which may be written.
fn import_open(
    alloc: Global,
    host: &Host,
    resource: &Path,
    path: &Path,
    tree: Tree<Stamp>,
) -> Result<Intent, OutOfMemory>
    requires { IsOpen host.now.root path.now }
    ensures { IfOk result (FittingImportWants host.now resource.now path.now tree) }
{
    match from_depot(alloc, tree, resource) {
        Ok(part) => import_part(host, path, part),
        Err(TreeErr::OutOfMemory) => Err(OutOfMemory),
        Err(_) => Ok(limit(Which::Path)),
    }
}

// What it wants, by the tree with its files in the depot.
fn import_part(host: &Host, path: &Path, part: Tree<Held>) -> Result<Intent, OutOfMemory>
    requires { IsOpen host.now.root path.now }
    ensures { IfOk result (PartWants host.now path.now part) }
{
    let mut next = host.copy()?;
    next.touch(path);
    match next.root.graft(path, part) {
        Ok(()) => Ok(sized(next)),
        Err(TreeErr::OutOfMemory) => Err(OutOfMemory),
        Err(TreeErr::Path) => Ok(limit(Which::Path)),
        Err(TreeErr::Limit) => Ok(limit(Which::Entries)),
        Err(TreeErr::NotDirectory | TreeErr::Exists) => unreachable!(),
    }
}

// The coming host, where it is within the limits.
fn sized(next: Host) -> Intent
    ensures { result ≡ sized next }
{
    match passed_limit(next.root.pairs(), next.lower.pairs()) {
        Some(which) => limit(which),
        None => Intent::Changes(next, Answer::Done),
    }
}

// The refusal of what would pass a limit.
fn limit(which: Which) -> Intent
    ensures { result ≡ Refuses (Limit which) }
{
    Intent::Refuses(Refusal::Limit { which })
}
