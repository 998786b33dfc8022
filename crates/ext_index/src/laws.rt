//! What follows from the definition of the index alone.
ghost use Rattle.std.specs.Prelude.{◌≡◌, false, length};
ghost use Rattle.ext_index_lines.specs.declared.text_number.TextNumber.TheVariants.{One, Later};
ghost use Rattle.ext_index.specs.Index.{index_text};
ghost use Rattle.ext_index.specs.IndexLaws.{NoFault, OneFault, OneHost, OneText};
ghost use Rattle.ext_index.specs.Laws.{empty_host, empty_index_1, empty_index_2};

/// The index of a host on which nothing stands: its lines as text 2 and that they have 133 bytes, and its lines as text 1.
pub fn empty_host_has_this_index()
    ensures lines_2 { index_text (Later false) 1 empty_host ≡ empty_index_2 }
    ensures length_2 { length empty_index_2 ≡ 133 }
    ensures lines_1 { index_text One 1 empty_host ≡ empty_index_1 }
    ensures length_1 { length empty_index_1 ≡ 72 }
{}

/// Bytes are the index of one host at most, as the text of one number, and a host has one index of each number.
pub fn an_index_is_of_one_host()
    ensures host { OneHost }
    ensures text { OneText }
{}

/// An index has no faulty line, and bytes that are none have one at most: what the reading accepts and what it refuses exclude
/// each other.
pub fn an_index_is_not_faulty()
    ensures none { NoFault }
    ensures one { OneFault }
{}
