// The words of a line.
ghost use Rattle.std.specs.Prelude.{◌≡◌, ◌≢◌, ◌<◌, ℕ, List, [], ◌∷◌, length, IfSome, IfNone, IsTrue, ◌↔◌};
ghost use Rattle.job_script.specs.Words.{parts, words};

/// The bytes before the first separator, and those behind it. `None` comes where there is no separator.
pub(crate) fn split_once(bytes: &[u8], separator: u8) -> Option<(&[u8], &[u8])>
    ensures found { IfSome result (λ found. parts separator bytes.now ≡ found.0.now ∷ parts separator found.1.now) }
    ensures shorter { IfSome result (λ found. length found.1.now < length bytes.now) }
    ensures none { IfNone result (parts separator bytes.now ≡ bytes.now ∷ []) }
{
    for (i, b) in bytes.iter().enumerate() {
        if *b == separator {
            return Some((&bytes[..i], &bytes[i + 1..]));
        }
    }
    None
}

/// The line without the spaces at its front.
fn trim_start(line: &[u8]) -> &[u8]
    ensures words { words result.now ≡ words line.now }
    ensures front { (more : List ℕ) → result.now ≢ 32 ∷ more }
{
    let mut rest = line;
    while let [b' ', behind @ ..] = rest {
        rest = behind;
    }
    rest
}

/// The first word of a line, and the bytes behind it.
pub(crate) fn next_word(line: &[u8]) -> Option<(&[u8], &[u8])>
    ensures found { IfSome result (λ found. words line.now ≡ found.0.now ∷ words found.1.now) }
    ensures none { IfNone result (words line.now ≡ []) }
{
    let line = trim_start(line);
    if line.is_empty() {
        return None;
    }
    match split_once(line, b' ') {
        Some((word, behind)) => Some((word, behind)),
        None => Some((line, &[])),
    }
}

/// Whether a line has no words.
pub(crate) fn is_blank(line: &[u8]) -> bool
    ensures { IsTrue result ↔ (words line.now ≡ []) }
{
    next_word(line).is_none()
}

/// The word of a line that has one.
pub(crate) fn one_word(line: &[u8]) -> Option<&[u8]>
    ensures found { IfSome result (λ word. words line.now ≡ word.now ∷ []) }
    ensures none { IfNone result ((word : List ℕ) → words line.now ≢ word ∷ []) }
{
    let (word, rest) = next_word(line)?;
    match next_word(rest) {
        None => Some(word),
        Some(_) => None,
    }
}

/// The words of a line that has two.
pub(crate) fn two_words(line: &[u8]) -> Option<(&[u8], &[u8])>
    ensures found { IfSome result (λ found. words line.now ≡ found.0.now ∷ found.1.now ∷ []) }
    ensures none { IfNone result ((first second : List ℕ) → words line.now ≢ first ∷ second ∷ []) }
{
    let (first, rest) = next_word(line)?;
    let second = one_word(rest)?;
    Some((first, second))
}
