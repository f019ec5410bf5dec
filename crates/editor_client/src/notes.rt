/// What an editor made of a body that it heard.
#[derive(Clone, Copy, Debug, PartialEq, Eq)]
pub enum HeardNote {
    /// An edit of the daemon, which is shown and counted.
    Shown,
    /// An edit of the daemon that is passed over: the text is not open, the edit was made without some
    /// edit of this editor or is of another session, it is for another URI, or it does not fit the text.
    Ignored,
    /// The success of the last open.
    Replied,
    /// An error with this code. Where it answers a request not older than the last open, the text is
    /// closed from then on.
    RefusedBy(i64),
    /// The success of any other request.
    Other,
}
