//! The texts of lines, in files and as they come.

/// What stands on a line, without a carriage return at its end.
pub(crate) fn content_of(line: &str) -> &str {
    line.strip_suffix('\r').unwrap_or(line)
}

/// Whether a line is passed over: it is empty, or a comment.
pub(crate) fn is_passed_over(content: &str) -> bool {
    content.is_empty() || content.starts_with('#')
}
