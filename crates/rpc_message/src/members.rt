ghost use Rattle.std.specs.Prelude.{◌≡◌};
ghost use Rattle.rpc_message.specs.Members as spec;

/// The parameters of a request, or one of their members.
#[derive(Clone, Copy, Debug, PartialEq, Eq)]
pub enum Member {
    /// `params`, the parameters themselves.
    Params,
    /// `uri`, the file that is meant.
    Uri,
    /// `content`, the text of the file.
    Content,
    /// `revision`, a count of edits.
    Revision,
    /// `delta`, the edits.
    Delta,
    /// `ranges`, what is selected.
    Ranges,
}

impl Member {
    /// The name of the member.
    pub fn name(self) -> &'static str
        ensures { result.now ≡ spec.name self }
    {
        match self {
            Member::Params => "params",
            Member::Uri => "uri",
            Member::Content => "content",
            Member::Revision => "revision",
            Member::Delta => "delta",
            Member::Ranges => "ranges",
        }
    }
}

/// The member of this name.
pub(crate) fn member_named(name: &str) -> Option<Member>
    ensures { result ≡ spec.member_named name.now }
{
    match name {
        "params" => Some(Member::Params),
        "uri" => Some(Member::Uri),
        "content" => Some(Member::Content),
        "revision" => Some(Member::Revision),
        "delta" => Some(Member::Delta),
        "ranges" => Some(Member::Ranges),
        _ => None,
    }
}
