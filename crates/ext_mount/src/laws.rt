//! Laws of what is asked and of what is printed, each the contract of a function that does nothing.
ghost use Rattle.std.specs.Prelude.{ℕ, ◌+◌, List, Some};
ghost use Rattle.std.specs.List.{AllByRecursion};
ghost use Rattle.ext_tree.specs.Tree.{Entries};
ghost use Rattle.ext_host.specs.Held.{HeldFile};
ghost use Rattle.ext_gen.specs.Opened.{Generation, IsOpened};
ghost use Rattle.ext_erofs.specs.HomePath.{homed_of};
ghost use Rattle.ext_erofs.specs.Homed.{homed_entries};
ghost use Rattle.ext_erofs.specs.Image.{count_shown};
ghost use Rattle.ext_erofs.specs.Shown.{IsSuperblock, Shows, shown};
ghost use Rattle.ext_erofs.specs.Standing.{IsPlain};
ghost use Rattle.ext_mount.specs.Asked.{IsImageAsk, time_of};
ghost use Rattle.ext_mount.specs.declared.asked.ImageAsk.{ImageAsk};
ghost use Rattle.ext_mount.specs.Asking.{HasImage, image_asked};
ghost use Rattle.ext_mount.specs.Laws.{OneImageAsked, OneImageFault};

/// Words that ask nothing have one first fault.
pub fn words_have_one_first_fault()
    ensures { OneImageFault }
{}

/// Words ask one thing.
pub fn words_ask_one_thing()
    ensures { OneImageAsked }
{}

/// Linux finds in a printed image, at each path, what the tree that was asked has there, and nothing where it has nothing: each
/// file's home, size, owner, mode and capability, and the time that was asked.
pub fn what_is_printed_is_shown()
    ensures superblock { (generation : Generation) (ask : ImageAsk) (root : Entries HeldFile) → IsOpened generation
        → IsImageAsk ask → HasImage (Some generation) ask root
        → IsSuperblock (image_asked ask root) (1 + count_shown (homed_entries homed_of root)) (time_of ask) }
    ensures shows { (generation : Generation) (ask : ImageAsk) (root : Entries HeldFile) → IsOpened generation
        → IsImageAsk ask → HasImage (Some generation) ask root
        → (path : List (List ℕ)) → AllByRecursion IsPlain path
        → Shows (image_asked ask root) (time_of ask) path (shown (homed_entries homed_of root) path) }
{}
