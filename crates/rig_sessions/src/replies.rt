//! Replies that a session gives without a call.

ghost use Rattle.std.specs.Prelude.{◌≡◌};
ghost use Rattle.rig_model.specs.Sessions.{written};
ghost use Rattle.rig_sessions.specs.inner.Steps.{text_of_own};

/// A reply that a session gives without a call.
#[derive(Clone, Copy, Debug, PartialEq, Eq)]
pub enum OwnReply {
    /// `ok hello`: the tenant is greeted.
    Hello,
    /// `err bad-command`: the line has none of the forms.
    BadCommand,
    /// `err not-greeted`: a command, and no tenant was greeted yet.
    NotGreeted,
    /// `err greeted`: a second `hello`.
    Greeted,
    /// `err who`: an unknown tenant, or a wrong key.
    Who,
}

impl OwnReply {
    /// The line that is written, with its LF.
    pub fn as_line(self) -> &'static str
        ensures { result.now ≡ written (text_of_own self) }
    {
        match self {
            OwnReply::Hello => "ok hello\n",
            OwnReply::BadCommand => "err bad-command\n",
            OwnReply::NotGreeted => "err not-greeted\n",
            OwnReply::Greeted => "err greeted\n",
            OwnReply::Who => "err who\n",
        }
    }
}
