//! Laws of the homes of a coming generation, each the contract of a function that does nothing.
ghost use Rattle.ext_homes.specs.Laws.{PlacedInOneWay, TakesHomeOfBytes, WritesWhatIsNew};

/// Where the disk has at each listed home bytes of the listed stamp, a brought file takes the least home of its own bytes,
/// whatever stamp they are listed with. Where there is none it is written, and takes the next number.
pub fn a_brought_file_takes_the_least_home_of_its_bytes()
    ensures { TakesHomeOfBytes }
{}

/// Where that is so and the depot tells its files, a host is placed in one way.
pub fn a_host_is_placed_in_one_way()
    ensures { PlacedInOneWay }
{}

/// Where that is so, a host that is placed writes as many bytes of files as the file entries of its root and lower have
/// whose bytes no file of the host before has.
pub fn what_is_written_is_new()
    ensures { WritesWhatIsNew }
{}
