// What a session leaves behind.

/// What a session had when it was closed: how many containers it had started, and how many manifests it had written,
/// each numbered from 0.
#[derive(Clone, Copy, Debug, PartialEq, Eq)]
pub struct Ended {
    pub containers: u32,
    pub texts: u32,
}
