//! Why words give no command.

/// Why there is no command: the words break a rule, or memory wants.
#[derive(Clone, Copy, Debug, PartialEq, Eq, thiserror::Error)]
pub enum WordsFault {
    #[error("usage")]
    Usage,
    #[error("out of memory")]
    OutOfMemory,
}
