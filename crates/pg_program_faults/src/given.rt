//! The words that the program was given.

/// The value of an option, as `--show 3` or `--show=3` has it; the last where it was given more often.
pub(crate) fn value_of<'a>(words: &'a [String], option: &str) -> Option<&'a str> {
    let mut value = None;
    let mut is_next = false;
    for word in words {
        if is_next {
            value = Some(word.as_str());
            is_next = false;
        } else if word.as_str() == option {
            is_next = true;
        } else if let Some(rest) = word.as_str().strip_prefix(option) {
            if let Some(given) = rest.strip_prefix('=') {
                value = Some(given);
            }
        }
    }
    value
}

/// How often an option was given.
pub(crate) fn times_of(words: &[String], option: &str) -> usize {
    let mut times = 0usize;
    for word in words {
        if let Some(rest) = word.as_str().strip_prefix(option) {
            if rest.is_empty() || rest.starts_with('=') {
                times = times.saturating_add(1);
            }
        }
    }
    times
}
