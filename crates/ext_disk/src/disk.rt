ghost use Rattle.std.specs.Prelude.{◌≤◌, length, is_ok, IfOk, IfErr, IfSome};
ghost use Rattle.ext_text.specs.Causes.{HasCause};
ghost use Rattle.ext_disk.specs.Disk.{DiskState, IsDisk};
ghost use Rattle.ext_disk.specs.Calls.{look, make_dir, make_file, append, sync_file, sync_dir, rename, remove, MayCall, Does};
ghost use Rattle.ext_disk.specs.Lookups.{MayList, MayRead, Lists, ListCause, IsKindAt, IsReadOf};

use crate::kind::Kind;
use crate::list_err::ListErr;
use ext_io::Failed;
use ext_text::{Names, Path};
use std::alloc::Global;

/// A tree of folders and files under one root, the empty path, that a program changes, and that a stop may catch at any
/// moment.
///
/// Where a disk tells what stands on it, it tells everything: each path, what of it is not synced, the moments of its past,
/// and the sum of the bytes appended. Conditions are in force where contents are told, so that no misuse provokes a
/// fault. Each call that fails is counted, told or not. The model is this project's own.
pub trait Disk {
    /// What contracts see of it.
    ghost state: { Self → DiskState };

    /// The names directly in a folder, in byte order, each of which makes a path with it.
    ///
    /// # Errors
    /// `Failed` where the disk failed, `OutOfMemory` where the names found no memory. The disk is as before.
    fn list(&mut self, alloc: Global, dir: &Path) -> Result<Names, ListErr>
        requires { MayList (state self.old) dir.now }
        ensures names { IfOk result (Lists (state self.old) dir.now) }
        ensures does { Does look (state self.old) (state self.new) (is_ok result) }
        ensures cause { IfErr result (ListCause (state self.old).faults (state self.new).faults) };

    /// What stands at a path: a folder, a file with its size, or nothing.
    ///
    /// # Errors
    /// The disk failed. It is as before.
    fn kind(&mut self, path: &Path) -> Result<Option<Kind>, Failed>
        ensures kind { IfOk result (IsKindAt (state self.old) path.now) }
        ensures does { Does look (state self.old) (state self.new) (is_ok result) }
        ensures cause { HasCause result (state self.old).faults (state self.new).faults };

    /// Reads bytes of the file at a path, from the byte `at` on, counted from 0, to the beginning of a buffer that has room
    /// for one at least, and gives how many they are: 0 exactly at or past the file's end.
    ///
    /// # Errors
    /// The disk failed. It is as before.
    fn read(&mut self, path: &Path, at: u64, buf: &mut [u8]) -> Result<usize, Failed>
        requires { MayRead (state self.old) path.now (length buf.old) }
        ensures within { IfOk result (λ count. count ≤ length buf.new) }
        ensures moved { IfOk result (IsReadOf (state self.old) path.now at buf.new) }
        ensures does { Does look (state self.old) (state self.new) (is_ok result) }
        ensures cause { HasCause result (state self.old).faults (state self.new).faults };

    /// Makes an empty folder in a folder, at a path at which nothing stands. Its name is unsynced until the folder is synced.
    ///
    /// # Errors
    /// The disk failed. Nothing changed, or the new folder is there or not and its name is unsynced.
    fn make_dir(&mut self, path: &Path) -> Result<(), Failed>
        requires { MayCall (make_dir path.now) (state self.old) }
        ensures does { Does (make_dir path.now) (state self.old) (state self.new) (is_ok result) }
        ensures cause { HasCause result (state self.old).faults (state self.new).faults };

    /// Makes an empty file in a folder, at a path at which nothing stands. Its name is unsynced until the folder is synced, and
    /// its bytes are unsynced until the file is.
    ///
    /// # Errors
    /// The disk failed. Nothing changed, or the new file is there or not and its name is unsynced.
    fn make_file(&mut self, path: &Path) -> Result<(), Failed>
        requires { MayCall (make_file path.now) (state self.old) }
        ensures does { Does (make_file path.now) (state self.old) (state self.new) (is_ok result) }
        ensures cause { HasCause result (state self.old).faults (state self.new).faults };

    /// Adds bytes, of which there is one at least, at the end of a file. Its bytes are unsynced until the file is synced.
    ///
    /// # Errors
    /// The disk failed. Nothing changed, or the file has any bytes, and has unsynced bytes.
    fn append(&mut self, path: &Path, bytes: &[u8]) -> Result<(), Failed>
        requires { MayCall (append path.now bytes.now) (state self.old) }
        ensures does { Does (append path.now bytes.now) (state self.old) (state self.new) (is_ok result) }
        ensures cause { HasCause result (state self.old).faults (state self.new).faults };

    /// Syncs the bytes of a file.
    ///
    /// # Errors
    /// The disk failed. It is as before.
    fn sync_file(&mut self, path: &Path) -> Result<(), Failed>
        requires { MayCall (sync_file path.now) (state self.old) }
        ensures does { Does (sync_file path.now) (state self.old) (state self.new) (is_ok result) }
        ensures cause { HasCause result (state self.old).faults (state self.new).faults };

    /// Syncs the names directly in a folder.
    ///
    /// # Errors
    /// The disk failed. It is as before.
    fn sync_dir(&mut self, dir: &Path) -> Result<(), Failed>
        requires { MayCall (sync_dir dir.now) (state self.old) }
        ensures does { Does (sync_dir dir.now) (state self.old) (state self.new) (is_ok result) }
        ensures cause { HasCause result (state self.old).faults (state self.new).faults };

    /// Renames a file in its folder, over the file that stands at the other name, if one does. Where both paths were durable
    /// a stop leaves the old or the new file at the other name. Else that has an unsynced name and unsynced bytes.
    ///
    /// # Errors
    /// The disk failed. Nothing changed, or the file was moved or not and both paths are marked as if it was.
    fn rename(&mut self, from: &Path, to: &Path) -> Result<(), Failed>
        requires { MayCall (rename from.now to.now) (state self.old) }
        ensures does { Does (rename from.now to.now) (state self.old) (state self.new) (is_ok result) }
        ensures cause { HasCause result (state self.old).faults (state self.new).faults };

    /// Removes a file or an empty folder, which is not the root.
    ///
    /// # Errors
    /// The disk failed. Nothing changed, or it is gone or not and its name is unsynced.
    fn remove(&mut self, path: &Path) -> Result<(), Failed>
        requires { MayCall (remove path.now) (state self.old) }
        ensures does { Does (remove path.now) (state self.old) (state self.new) (is_ok result) }
        ensures cause { HasCause result (state self.old).faults (state self.new).faults };

    /// A disk that tells holds a tree, and its present is the moment of its clock.
    ghost holds_a_tree: { (disk : Self) → IfSome (state disk).told IsDisk };
}
