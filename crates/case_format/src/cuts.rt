/// What stands before and behind the first of this mark in a text, where it has one.
pub fn cut(text: &str, mark: u8) -> Option<(&str, &str)> {
    let place = place_of(text.as_bytes(), mark)?;
    let before = text.get(..place)?;
    let behind = text.get(place.saturating_add(1)..)?;
    Some((before, behind))
}

/// Where the first byte of a value stands.
fn place_of(bytes: &[u8], value: u8) -> Option<usize> {
    for (place, byte) in bytes.iter().enumerate() {
        if *byte == value {
            return Some(place);
        }
    }
    None
}
