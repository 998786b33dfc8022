//! What holds of paths, beside what each call promises.
ghost use Rattle.std.specs.Prelude.{◌≡◌, ◌<◌, ◌↔◌, ◌∷◌, ◌++◌, ℕ, List, take, drop, length, true};
ghost use Rattle.std.specs.List.{AllByRecursion};
ghost use Rattle.ext_text.specs.Name.{IsName};
ghost use Rattle.ext_text.specs.Path.{IsPath, path_cmp, path_text, path_parts};
ghost use Rattle.ext_text.specs.PathText.{text_cmp, text_of_both, text_prefix};
ghost use Rattle.ext_text.specs.Prefix.{is_prefix, is_proper_prefix};

/// A path's text is that of no other path, and its parts are the path's names.
pub fn a_text_has_one_path()
    ensures one { (p q : List (List ℕ)) → IsPath p → IsPath q → path_text p ≡ path_text q → p ≡ q }
    ensures parts { (p : List (List ℕ)) → AllByRecursion IsName p → path_parts (path_text p) ≡ p }
{}

/// The first names of a path are within the limits, and so are the last ones.
pub fn a_part_of_a_path_is_a_path()
    ensures prefix { (count : ℕ) (p : List (List ℕ)) → IsPath p → IsPath (take count p) }
    ensures rest { (count : ℕ) (p : List (List ℕ)) → IsPath p → IsPath (drop count p) }
{}

/// A path begins with another exactly where the other is its first names. A proper prefix is shorter than the whole.
pub fn a_prefix_is_the_first_names()
    ensures prefix { (p q : List (List ℕ)) → (is_prefix p q ≡ true) ↔ (p ≡ take (length p) q) }
    ensures proper { (p q : List (List ℕ)) → (is_proper_prefix p q ≡ true) ↔ ((p ≡ take (length p) q) × (length p < length q)) }
{}

/// The order of the texts of paths, with `/` below every other byte, is the order of the paths.
pub fn texts_stand_in_the_order_of_paths()
    ensures { (p q : List (List ℕ)) → AllByRecursion IsName p → AllByRecursion IsName q
        → text_cmp (path_text p) (path_text q) ≡ path_cmp p q }
{}

/// The text of a path begins with that of another, and a name ends there, exactly where the path begins with the other.
pub fn a_prefix_of_a_text_is_one_of_the_path()
    ensures { (p q : List (List ℕ)) → AllByRecursion IsName p → AllByRecursion IsName q
        → text_prefix (path_text p) (path_text q) ≡ is_prefix p q }
{}

/// A text of names that is cut at any slash has the names before it, and then those after it, and all of these are
/// names. Two texts of names, one below the other, are the text of the names of both.
pub fn a_text_is_cut_at_any_slash()
    ensures names { (upper lower : List ℕ) → AllByRecursion IsName (path_parts (upper ++ 47 ∷ lower))
        → path_parts (upper ++ 47 ∷ lower) ≡ path_parts upper ++ path_parts lower }
    ensures both { (upper lower : List ℕ) → AllByRecursion IsName (path_parts (upper ++ 47 ∷ lower))
        → AllByRecursion IsName (path_parts upper) × AllByRecursion IsName (path_parts lower) }
    ensures joined { (p q : List (List ℕ)) → AllByRecursion IsName p → AllByRecursion IsName q
        → text_of_both (path_text p) (path_text q) ≡ path_text (p ++ q) }
{}
