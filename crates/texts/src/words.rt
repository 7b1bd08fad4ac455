// The words of a line: numbers, and names that stand in a table. Spaces and tabs stand between them.
ghost use Rattle.std.specs.Prelude.{◌≡◌, ℕ, ◌++◌, ◌≤◌, ◌<◌, drop, length, IfSome};

fn is_space(byte: u8) -> bool {
    byte == b' ' || byte == b'\t'
}

// Nothing but spaces and tabs.
pub fn is_blank(line: &[u8]) -> bool {
    line.iter().all(|byte| is_space(*byte))
}

// The letter with which the next word begins.
pub fn first(line: &[u8]) -> Option<u8> {
    line.iter().copied().find(|byte| !is_space(*byte))
}

// The next word, and what stands behind it. There is none where all is blank.
pub fn next(line: &[u8]) -> (&[u8], &[u8])
    ensures { (from : ℕ) × (from ≤ length line.now) × (drop from line.now ≡ result.0.now ++ result.1.now) }
{
    let from = line
        .iter()
        .position(|byte| !is_space(*byte))
        .unwrap_or(line.len());
    let rest = &line[from..];
    let end = rest
        .iter()
        .position(|byte| is_space(*byte))
        .unwrap_or(rest.len());
    rest.split_at(end)
}

// One to five digits 0-9, and nothing else.
pub fn number(word: &[u8]) -> Option<u32>
    ensures { IfSome result (λ n. n < 100000) }
{
    if 5 < word.len() || !word.iter().all(|byte| byte.is_ascii_digit()) {
        return None;
    }
    let Ok(digits) = std::str::from_utf8(word) else {
        return None;
    };
    digits.parse().ok()
}

// What a table says of a name.
pub fn named<T: Copy>(table: &[(&[u8], T)], name: &[u8]) -> Option<T> {
    table
        .iter()
        .find(|(own, _)| *own == name)
        .map(|(_, value)| *value)
}
