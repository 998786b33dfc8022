use crate::location::is_at_or_below;

/// The folders that were last found to be reached through no link: two of them, since a change reads from one folder of a
/// store and writes to another one by turns.
#[derive(Drop)]
pub(crate) struct Ways {
    last: Option<String>,
    earlier: Option<String>,
}

impl Ways {
    /// None was found yet.
    pub(crate) fn new() -> Ways {
        Ways {
            last: None,
            earlier: None,
        }
    }

    /// Whether a folder is one of them, or stands on the way to one.
    pub(crate) fn has(&self, folder: &str) -> bool {
        is_on_way(folder, &self.last) || is_on_way(folder, &self.earlier)
    }

    /// Keeps a folder in place of the one that was found longest ago.
    pub(crate) fn keep(&mut self, folder: String) {
        self.earlier = self.last.take();
        self.last = Some(folder);
    }
}

fn is_on_way(folder: &str, found: &Option<String>) -> bool {
    match found {
        Some(found) => is_at_or_below(found.as_str(), folder),
        None => false,
    }
}
