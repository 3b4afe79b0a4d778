// Several texts, read one behind another.

/// What stands between two texts that are joined: a line feed, ASCII's file separator (FS), a line feed.
pub const NEXT_TEXT: &[u8] = b"\n\x1c\n";
