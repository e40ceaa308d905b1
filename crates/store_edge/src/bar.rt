// Names that may not be touched.

/// Which names of a shelf are barred.
#[derive(Clone, Copy, Debug, PartialEq, Eq)]
pub enum Bar<'a> {
    /// None.
    Nothing,
    /// Each that leads into this folder, or is it: its first part that is neither empty nor `.` is this one.
    Folder(&'a str),
    /// Each.
    All,
}

impl Bar<'_> {
    /// Whether this name is barred.
    pub fn bars(&self, name: &str) -> bool {
        match self {
            Bar::Nothing => false,
            Bar::Folder(folder) => {
                let mut parts = name.split('/').filter(|part| leads_on(part));
                parts.next() == Some(*folder)
            }
            Bar::All => true,
        }
    }
}

// Whether a part of a path leads to another file than the path before it.
fn leads_on(part: &str) -> bool {
    !part.is_empty() && part != "."
}
