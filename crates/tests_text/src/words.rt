/// The word of this number of a line, from 0 on, and an empty one where the line has fewer.
pub fn word(line: &str, number: usize) -> &str {
    line.split(' ').nth(number).unwrap_or("")
}

/// The part of this number of a line, between the signs ` = `, and an empty one where the line has fewer.
pub fn part(line: &str, number: usize) -> &str {
    line.split(" = ").nth(number).unwrap_or("")
}

/// The first three words of a line, of which those that it lacks are empty.
pub fn three_words(line: &str) -> (&str, &str, &str) {
    (word(line, 0), word(line, 1), word(line, 2))
}
