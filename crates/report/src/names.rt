// The names of streams as text.
ghost use Rattle.std.specs.Prelude.{◌≡◌};

use ss_base::StreamName;

pub(crate) fn name_text(name: &StreamName) -> &str
    ensures { result.now ≡ name.now }
{
    str::from_utf8(name.bytes()).unwrap()
}
