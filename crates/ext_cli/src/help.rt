// What `--help` and `--version` print.

/// The version; the kit that the program is proved with, as README and dist/x86_64-linux/made-from have it; and the licences.
pub(crate) const VERSION: &str = "hostext 0.3.0
proved with rattle-kit-13f logic dac8208d650f15bf
SPDX-License-Identifier: MIT OR Apache-2.0";

pub(crate) const HELP: &str = "usage: hostext STORE DEPOT COMMAND ..

STORE is a folder that is there already, in which a host is kept; DEPOT is one
that files are read from. Where a command looks at neither, . will do.

commands:
  init ARCH SCOPE [HIERS [HIERS]]
                      make the store of a host without entries. ARCH is x86,
                      x86-64, arm, arm64, riscv64, s390x, ppc64-le or
                      loongarch64; SCOPE is system or initrd; HIERS are the
                      hierarchies of system extensions, then those of
                      configuration extensions, as /usr:/opt
  import-fs RES PATH  put the tree RES.tree of the depot, with the files below
                      RES, in place of what stands at and below the path
  remove PATH         remove what stands at and below the path
  sysext list         write what images of system extensions there are, each
                      with what is said of it
  sysext status       write which of them are merged
  sysext merge [--force]
                      merge those that fit into the hierarchies
  sysext unmerge      take the view away
  sysext refresh [--force]
                      merge anew, in one change
  sysext changes [--force]
                      write what a refresh would show that the base has not, and
                      what it would hide or change of that
  sysext explain [--force] PATH
                      write which layers of a refresh have an entry at the path,
                      or hide what is below them there
  confext ..          as sysext, with configuration extensions
  sysupdate [--component=NAME] list
                      write the versions that the host's transfers have
                      installed or may take over from the depot
  sysupdate [--component=NAME] check-new
                      write the version that an update would install
  sysupdate [--component=NAME] update [VERSION]
                      install that version or else the newest, and remove the
                      oldest so that there is room
  sysupdate [--component=NAME] vacuum
                      remove the oldest versions that are too many
  sysupdate [--component=NAME] features
                      write which features of transfers are on
  sysupdate components
                      write which components have transfers of their own
  portable list       write what images of portable services there are, each
                      with its state
  portable inspect IMAGE [PREFIX ..]
                      write where an image is, its ID and VERSION_ID, and its
                      units: those that begin with a prefix, by default that of
                      its name
  portable is-attached NAME
                      write whether an image of that name is attached
  portable attach IMAGE [PREFIX ..]
                      attach an image: put its units into the host, services
                      with drop-ins. Among the words may stand --runtime,
                      --profile=NAME, --copy=MODE, where MODE is copy, symlink,
                      auto or mixed, and --extension=EXT up to 16 times
  portable detach NAME
                      take away what attaching an image added
  portable reattach IMAGE [PREFIX ..]
                      detach each version of an image and attach it, in one
                      change, with the options of attach
  mark [K]            mark what the host has now, to go back to, and keep the K
                      youngest marks; K is 1 to 16, by default 16
  history [--changes G]
                      write the marks, the youngest first, each with the number
                      of its generation and how many entries and files it has;
                      or what has changed since mark G
  rollback G          go back to mark G
  forget G            drop mark G
  tree [PATH]         write the tree text of what stands below the path
  cat PATH            write the bytes of a file; links are not followed
  check               compare each file of the store with its digest
  migrate             write the store anew, in the newest form of its text
  compare TEXT TEXT   write less, equal or greater: the order of two versions
  layer               read a sequence of tree texts from standard input, the
                      host first, and write the text of the layered tree
  batch               read standard input to its end, and run the command on
                      each line, one after another: any but layer, batch and
                      sample. A line without a word, and one that begins with
                      #, counts for nothing
  sample N            make a host with N images in memory, and write what its
                      tree comes to; N is 1 to 500

It ends with 0 where the command was done, 1 refused, 2 usage, 3 read fault,
4 write fault, 5 disk fault, 6 depot fault, 7 out of memory, 8 bad store,
9 unfinished, 10 input too long. `hostext: usage N` says that word N after
DEPOT is the first that no command has there, or that it is missing.

Where standard error is a terminal, a command that works for more than half a
second tells there how much of STORE and DEPOT it has read and written so far.

HOSTEXT_EXPLAIN=yes has a second line on standard error say why, or what helps
after a refusal, also where that is no terminal. HOSTEXT_LOCK=no takes no lock on STORE.
HOSTEXT_PROGRESS=no tells nothing of what was read and written so far.

`hostext --version` writes the version, and the kit that it is proved with.";
