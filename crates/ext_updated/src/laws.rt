//! Laws of updates, and of manifests over many changes of a host, each the contract of a function that does nothing.
ghost use Rattle.ext_updated.specs.Laws.{AddedAndKept, FilesDecide, KeptAsLongAsUntouched, ManifestsOfPieces, OneClash, OneManifest, OneUpdated, OthersStay, PiecesMayBePut, PiecesStand, RemovedGoes, StayingStays};

/// Of items there is one least path that is in the way, or none.
pub fn items_have_one_clash<C>()
    ensures { OneClash C }
{}

/// There is one tree after an update.
pub fn an_update_leaves_one_tree<C>()
    ensures { OneUpdated C }
{}

/// Where nothing is in the way and only directories stand above what is written, the pieces of what is written may be put into
/// what is left: so whoever has asked for a clash may update.
pub fn pieces_without_a_clash_may_be_put<C>()
    ensures { PiecesMayBePut C }
{}

/// Where nothing is in the way, what stays has the same entries at and below its path, and nothing stands at and below what goes.
pub fn what_stays_and_what_goes<C>()
    ensures stays { StayingStays C }
    ensures goes { RemovedGoes C }
{}

/// Each piece stands as it was put, in directories; and what is outside of the removed and the written paths stays, the
/// directories above pieces among it.
pub fn pieces_stand_in_what_was_there<C>()
    ensures pieces { PiecesStand C }
    ensures others { OthersStay C }
{}

/// A path of a tree has one manifest.
pub fn a_path_has_one_manifest()
    ensures { OneManifest }
{}

/// The manifest of a piece's path in the tree after an update says what the piece has. A manifest says what stands at and below
/// its path, and nothing of other paths: so it is true of each tree that has the same there.
pub fn a_manifest_tells_of_its_path_alone()
    ensures pieces { ManifestsOfPieces }
    ensures files { FilesDecide }
{}

/// Over changes of a host of which each keeps the manifests that it leaves alone: one of the first host that none touches is kept
/// in the last, and so is one that a change added and that none after it touches. The files at and below its path in the base are
/// then those that it says.
pub fn manifests_are_kept_until_touched()
    ensures kept { KeptAsLongAsUntouched }
    ensures added { AddedAndKept }
{}
