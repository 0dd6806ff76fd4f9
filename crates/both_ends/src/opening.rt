// How the recovery channel of a connection began.

/// Nothing was given there yet; what came first was no Logon that failed; or it was one: a Logon that is no message.
#[derive(Clone, Copy, Drop)]
pub enum Opening {
    Awaited,
    Open,
    Failed,
}
