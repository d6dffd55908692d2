//! The class that a line begins with.
ghost use Rattle.std.specs.Prelude.{◌≡◌, ◌==◌, ◌<◌, ◌≤◌, ◌||◌, length, is_some, position, take, IfSome};
ghost use Rattle.std.specs.List.{list_all};
ghost use Rattle.clru_shares.specs.Classes.{class_in, has_class, is_class as is_class_by, is_class_byte, rest_in};

/// Returns the class that a line begins with: what stands before its first blank, if these are one or more visible ASCII characters
/// without `"`, `&`, `,`, `<`, `>` and `\`. Otherwise it returns `None`.
/// Cost: a step for each byte up to the blank.
pub fn class_of(line: &[u8]) -> Option<&[u8]>
    ensures class { IfSome result (λ class. class.now ≡ class_in line.now) }
    ensures has_class { is_some result ≡ has_class line.now }
{
    match blank_at(line) {
        Some(at) => class_before(line, at),
        None => None,
    }
}

/// Returns what follows a line's first blank: what the line would be without a class.
pub(crate) fn rest_of(line: &[u8]) -> &[u8]
    ensures { result.now ≡ rest_in line.now }
{
    match blank_at(line) {
        Some(at) => &line[at + 1..],
        None => &[],
    }
}

fn class_before(line: &[u8], at: usize) -> Option<&[u8]>
    requires { at ≤ length line.now }
    ensures class { IfSome result (λ class. class.now ≡ take at line.now) }
    ensures has_class { is_some result ≡ is_class_by (take at line.now) }
{
    let class = &line[..at];
    if is_class(class) { Some(class) } else { None }
}

fn blank_at(line: &[u8]) -> Option<usize>
    ensures place { result ≡ position (λ b. b == 32) line.now }
    ensures within { IfSome result (λ at. at < length line.now) }
{
    line.iter().position(|byte| *byte == b' ')
}

fn is_class(word: &[u8]) -> bool
    ensures { result ≡ is_class_by word.now }
{
    !word.is_empty() && has_class_bytes_alone(word)
}

fn has_class_bytes_alone(word: &[u8]) -> bool
    ensures { result ≡ list_all is_class_byte word.now }
{
    word.iter().all(|byte| is_of_class(*byte))
}

fn is_of_class(byte: u8) -> bool
    ensures { result ≡ is_class_byte byte }
{
    b' ' < byte && byte < b'\x7f' && !is_special(byte)
}

fn is_special(byte: u8) -> bool
    ensures { result ≡ (byte == 34 || (byte == 38 || (byte == 44 || (byte == 60 || (byte == 62 || byte == 92))))) }
{
    byte == b'"' || byte == b'&' || byte == b',' || byte == b'<' || byte == b'>' || byte == b'\\'
}
