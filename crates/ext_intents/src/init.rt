// The command `init`.
ghost use Rattle.std.specs.Prelude.{◌≡◌, ◌≢◌, [], None, IfOk};
ghost use Rattle.ext_text.specs.declared.scope.Scope.TheVariants as scopes;
ghost use Rattle.ext_cmd.specs.Words.{AreChosen};
ghost use Rattle.ext_intents.specs.Init.{InitWants, IsInOrder, IsNewHost, chosen_confext, chosen_sysext};

use crate::intent::Intent;
use ext_cmd::{Answer, Chosen};
use ext_host::{Attachments, Host, Manifests, Pasts, copy_of_list, default_hierarchies};
use ext_text::{Arch, Extension, Names, OutOfMemory, Scope};
use ext_tree::Tree;
use std::alloc::Global;

/// What `init` wants: a host without entries.
///
/// # Errors
/// Out of memory alone.
pub(crate) fn init_step(
    alloc: Global,
    arch: Arch,
    scope: Scope,
    hierarchies: &Chosen,
) -> Result<Intent, OutOfMemory>
    ensures { IfOk result (InitWants arch scope hierarchies.now) }
{
    let host = new_host(alloc, arch, scope, hierarchies)?;
    Ok(Intent::Changes(host, Answer::Done))
}

// A host without entries.
fn new_host(
    alloc: Global,
    arch: Arch,
    scope: Scope,
    hierarchies: &Chosen,
) -> Result<Host, OutOfMemory>
    ensures { IfOk result (IsNewHost arch scope hierarchies.now) }
{
    let sysext_hier = in_order(chosen_sysext(alloc, hierarchies)?)?;
    let confext_hier = in_order(chosen_confext(alloc, hierarchies)?)?;
    Ok(Host {
        arch,
        scope,
        root: Tree::new(alloc),
        lower: Tree::new(alloc),
        sysext: None,
        confext: None,
        attached: Attachments::new(alloc),
        kept: Manifests::new(alloc),
        sysext_hier,
        confext_hier,
        past: Pasts::new(alloc),
    })
}

// The hierarchies of system extensions, as they were given.
fn chosen_sysext(alloc: Global, hierarchies: &Chosen) -> Result<Names, OutOfMemory>
    ensures { IfOk result (λ names. names ≡ chosen_sysext hierarchies.now) }
{
    match hierarchies {
        Chosen::Default => default_hierarchies(alloc, Extension::Sysext),
        Chosen::Sysext(names) => copy_of_list(alloc, names),
        Chosen::Both { sysext, .. } => copy_of_list(alloc, sysext),
    }
}

// The hierarchies of configuration extensions, as they were given.
fn chosen_confext(alloc: Global, hierarchies: &Chosen) -> Result<Names, OutOfMemory>
    ensures { IfOk result (λ names. names ≡ chosen_confext hierarchies.now) }
{
    match hierarchies {
        Chosen::Default | Chosen::Sysext(_) => default_hierarchies(alloc, Extension::Confext),
        Chosen::Both { confext, .. } => copy_of_list(alloc, confext),
    }
}

// The names in the order of their bytes.
fn in_order(names: Names) -> Result<Names, OutOfMemory>
    ensures { IfOk result (λ ordered. IsInOrder names ordered) }
{
    let mut ordered = names.into_vec();
    ordered.sort()?;
    Ok(Names::from_vec(ordered))
}
