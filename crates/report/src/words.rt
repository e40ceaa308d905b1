// The words of a line: ids, lists of them, and counts.
ghost use Rattle.std.specs.Prelude.{◌≡◌, ◌++◌, OnOk, string_bytes};
ghost use Rattle.report.specs.EntryLine.{manifest_word, container_word, object_word, list_word, count_words};

use ss_base::{ContainerId, ManifestId, Object};
use std::alloc::AllocError;

/// A value that is printed as one word.
pub(crate) trait Word {
    ghost use Rattle.std.specs.Prelude.{List, ℕ};

    ghost word: { Self → List ℕ };

    fn push_to(&self, line: &mut String) -> Result<(), AllocError>
        ensures { OnOk result (string_bytes line.new ≡ string_bytes line.old ++ word self.now) };
}

impl Word for ManifestId {
    ghost word = { manifest_word };

    fn push_to(&self, line: &mut String) -> Result<(), AllocError> {
        push_manifest(line, self)
    }
}

impl Word for ContainerId {
    ghost word = { container_word };

    fn push_to(&self, line: &mut String) -> Result<(), AllocError> {
        push_container(line, self)
    }
}

impl Word for Object {
    ghost word = { object_word };

    fn push_to(&self, line: &mut String) -> Result<(), AllocError> {
        push_object(line, self)
    }
}

#[tactic(auto, unfolding(crate::specs::EntryLine::manifest_word))]
pub(crate) fn push_manifest(line: &mut String, id: &ManifestId) -> Result<(), AllocError>
    ensures { OnOk result (string_bytes line.new ≡ string_bytes line.old ++ manifest_word id.now) }
{
    write!(line, "m{}.{}", id.session, id.seq)
}

#[tactic(auto, unfolding(crate::specs::EntryLine::container_word))]
fn push_container(line: &mut String, id: &ContainerId) -> Result<(), AllocError>
    ensures { OnOk result (string_bytes line.new ≡ string_bytes line.old ++ container_word id.now) }
{
    write!(line, "c{}.{}", id.session, id.ordinal)
}

#[tactic(auto, unfolding(crate::specs::EntryLine::object_word))]
fn push_object(line: &mut String, object: &Object) -> Result<(), AllocError>
    ensures { OnOk result (string_bytes line.new ≡ string_bytes line.old ++ object_word object.now) }
{
    match object {
        Object::Container(id) => push_container(line, id),
        Object::Manifest(id) => push_manifest(line, id),
    }
}

#[tactic(auto, unfolding(crate::specs::EntryLine::list_word))]
pub(crate) fn push_list<T: Word>(line: &mut String, items: &[T]) -> Result<(), AllocError>
    ensures { OnOk result (string_bytes line.new ≡ string_bytes line.old ++ list_word T.word items.now) }
{
    let [first, rest @ ..] = items else {
        return line.push_str("-");
    };
    first.push_to(line)?;
    for item in rest {
        line.push_str(",")?;
        item.push_to(line)?;
    }
    Ok(())
}

#[tactic(auto, unfolding(crate::specs::EntryLine::count_words))]
pub(crate) fn push_count(line: &mut String, what: &str, count: u64) -> Result<(), AllocError>
    ensures { OnOk result (string_bytes line.new ≡ string_bytes line.old ++ count_words what.now count) }
{
    write!(line, " {what} {count}")
}
