// The lines of a script.
ghost use Rattle.std.specs.Prelude.{◌≡◌, ◌<◌, ◌∷◌, [], length, IfSome, IfNone};
ghost use Rattle.std.specs.Str.Lines.{lines, strip_carriage_return};

use crate::words::split_once;

/// The first line of some bytes, and the bytes behind it. `None` comes where there is no line.
pub(crate) fn next_line(bytes: &[u8]) -> Option<(&[u8], &[u8])>
    ensures found { IfSome result (λ found. lines bytes.now ≡ found.0.now ∷ lines found.1.now) }
    ensures shorter { IfSome result (λ found. length found.1.now < length bytes.now) }
    ensures none { IfNone result (lines bytes.now ≡ []) }
{
    if bytes.is_empty() {
        return None;
    }
    match split_once(bytes, b'\n') {
        Some((line, behind)) => Some((strip_carriage_return(line), behind)),
        None => Some((bytes, &[])),
    }
}

fn strip_carriage_return(line: &[u8]) -> &[u8]
    ensures { result.now ≡ strip_carriage_return line.now }
{
    match line {
        [front @ .., b'\r'] => front,
        _ => line,
    }
}
