//! Laws of manifests, each the contract of a function that does nothing: what holds of every text.
ghost use Rattle.ext_sums.specs.Laws.{DigestsAreDigests, ManifestOrFault, NoFaultInManifest, OneDigestIsNoOther, OneFault, OneManifest};

/// A text has a manifest or a first faulty line, never both, and no second line that is its first faulty one.
pub fn a_text_has_a_manifest_or_a_faulty_line()
    ensures either { ManifestOrFault }
    ensures not_both { NoFaultInManifest }
    ensures one_fault { OneFault }
{}

/// A text has one manifest: two lists that both are what it lists are equal.
pub fn a_text_has_one_manifest()
    ensures { OneManifest }
{}

/// Entries have one digest a name where no two of one name differ, and only there.
pub fn a_name_has_one_digest()
    ensures { OneDigestIsNoOther }
{}

/// Each digest that a manifest lists is one, of 32 bytes.
pub fn a_listed_digest_is_one()
    ensures { DigestsAreDigests }
{}
