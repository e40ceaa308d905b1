// What has become of a session.

#[derive(Clone, Copy)]
pub(crate) enum Stage {
    Unfinished,
    Retained,
    Aborted,
    Deleted,
}
