/// The word at a place, counted from 1; none where there are fewer.
pub fn word_at(words: &[String], place: u64) -> Option<&str> {
    let index = usize::try_from(place.checked_sub(1)?).ok()?;
    match words.get(index) {
        Some(word) => Some(word.as_str()),
        None => None,
    }
}
