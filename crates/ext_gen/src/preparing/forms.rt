// That a host is well formed, by what the types of its parts keep of their values.
ghost use Rattle.std.specs.Prelude.{◌≡◌, IfSome};
ghost use Rattle.std.specs.List.{AllByRecursion};
ghost use Rattle.ext_text.specs.Digest.{IsDigest};
ghost use Rattle.ext_text.specs.Name.{IsName};
ghost use Rattle.ext_text.specs.Path.{IsPath};
ghost use Rattle.ext_host.specs.Host.{past_tree, present};
ghost use Rattle.ext_index.specs.ValidIndex.{IsWellFormed, IsWellFormedAttachment, IsWellFormedManifest, IsWellFormedTree};

use ext_host::{Attachment, Host, Item, Manifest, Past};
use ext_text::{Name, Names, Path};

/// Nothing but the fact that a host is well formed: each of its names, paths and digests is read once, since what a type keeps
/// of its values is known of a value that was read.
pub(crate) fn well_formed_host(host: &Host)
    ensures { IsWellFormed host.now }
{
    look_at_names(host.sysext_hier.as_slice());
    look_at_names(host.confext_hier.as_slice());
    look_at_present(host);
    look_at_pasts(host.past.as_slice());
}

// Reads the trees and lists of the present.
fn look_at_present(host: &Host)
    ensures { IsWellFormedTree (present host.now) }
{
    let _root = host.root.pairs();
    let _lower = host.lower.pairs();
    look_at_merged(&host.sysext);
    look_at_merged(&host.confext);
    look_at_attachments(host.attached.as_slice());
    look_at_manifests(host.kept.as_slice());
}

// Reads all past trees.
fn look_at_pasts(pasts: &[Past])
    ensures { AllByRecursion (λ past. IsWellFormedTree (past_tree past)) pasts.now }
{
    'pasts: for past in pasts {
        look_at_past(past);
    }
}

// Reads the trees and lists of a past tree.
fn look_at_past(past: &Past)
    ensures { IsWellFormedTree (past_tree past.now) }
{
    let _root = past.root.pairs();
    let _lower = past.lower.pairs();
    look_at_merged(&past.sysext);
    look_at_merged(&past.confext);
    look_at_attachments(past.attached.as_slice());
    look_at_manifests(past.kept.as_slice());
}

// Reads the names that are merged, if some are.
fn look_at_merged(names: &Option<Names>)
    ensures { IfSome names.now (AllByRecursion IsName) }
{
    if let Some(names) = names {
        look_at_names(names.as_slice());
    }
}

// Reads each name.
fn look_at_names(names: &[Name])
    ensures { AllByRecursion IsName names.now }
{
    'names: for name in names {
        let _bytes = name.bytes();
    }
}

// Reads each path.
fn look_at_paths(paths: &[Path])
    ensures { AllByRecursion IsPath paths.now }
{
    'paths: for path in paths {
        let _names = path.names();
    }
}

// Reads each attachment.
fn look_at_attachments(attached: &[Attachment])
    ensures { AllByRecursion IsWellFormedAttachment attached.now }
{
    'attachments: for attachment in attached {
        look_at_attachment(attachment);
    }
}

// Reads the name and the paths of an attachment.
fn look_at_attachment(attachment: &Attachment)
    ensures { IsWellFormedAttachment attachment.now }
{
    let _name = attachment.name.bytes();
    let _place = attachment.place.names();
    look_at_paths(attachment.added.as_slice());
}

// Reads each manifest.
fn look_at_manifests(manifests: &[Manifest])
    ensures { AllByRecursion IsWellFormedManifest manifests.now }
{
    'manifests: for manifest in manifests {
        look_at_manifest(manifest);
    }
}

// Reads the path and the items of a manifest.
fn look_at_manifest(manifest: &Manifest)
    ensures { IsWellFormedManifest manifest.now }
{
    let _path = manifest.path.names();
    look_at_items(manifest.items.as_slice());
}

// Reads each item.
fn look_at_items(items: &[Item])
    ensures { AllByRecursion (λ item. IsPath item.path × IsDigest item.digest.0) items.now }
{
    'items: for item in items {
        look_at_item(item);
    }
}

// Reads the path and the digest of an item.
fn look_at_item(item: &Item)
    ensures path { IsPath item.now.path }
    ensures digest { IsDigest item.now.digest.0 }
{
    let _path = item.path.names();
    let _digest = item.digest.bytes();
}
