// The header of a journal.
ghost use Rattle.std.specs.Prelude.{◌≡◌, ◌++◌, IfSome, IfNone};
ghost use Rattle.journal_file.specs.Header.{header_text};
ghost use Rattle.journal_file.specs.Journal.{HasNoHeader};

use ss_base::Profile;

/// The eight bytes with which a journal of this profile begins.
pub(crate) fn header_of(profile: Profile) -> &'static [u8]
    ensures { result.now ≡ header_text profile }
{
    match profile {
        Profile::Tiny => b"SSJ1\x01\0\0\0",
        Profile::Small => b"SSJ1\x02\0\0\0",
        Profile::Large => b"SSJ1\x03\0\0\0",
    }
}

/// The profile of the header that begins the bytes, and the bytes behind it.
pub(crate) fn split_header(bytes: &[u8]) -> Option<(Profile, &[u8])>
    ensures found { IfSome result (λ found. bytes.now ≡ header_text found.0 ++ found.1.now) }
    ensures none { IfNone result (HasNoHeader bytes.now) }
{
    match bytes {
        [b'S', b'S', b'J', b'1', 1, 0, 0, 0, rest @ ..] => Some((Profile::Tiny, rest)),
        [b'S', b'S', b'J', b'1', 2, 0, 0, 0, rest @ ..] => Some((Profile::Small, rest)),
        [b'S', b'S', b'J', b'1', 3, 0, 0, 0, rest @ ..] => Some((Profile::Large, rest)),
        _ => None,
    }
}
