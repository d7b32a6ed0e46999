//! The words that say what a reply is.
ghost use Rattle.std.specs.Prelude.{◌≡◌};
ghost use Rattle.poets_command.specs.Calls.{reply_of};
ghost use Rattle.poets_books.specs.Replies as replies;

use poets_command::Reply;

/// What a reply is, in a word or two, as `name taken`.
///
/// Its printed text begins with these words, but for what was shown and for an answer (`laws::replies_begin_with_kinds`).
pub fn kind_text(reply: &Reply) -> &'static str
    ensures { result.now ≡ replies.kind_text (reply_of reply.now) }
{
    match reply {
        Reply::Registered(_) => "registered",
        Reply::NameTaken(_) => "name taken",
        Reply::Hopeless => "hopeless",
        Reply::TooLarge => "too large",
        Reply::Recorded { .. } => "recorded",
        Reply::Voided { .. } => "voided",
        Reply::NoEvent(_) => "no event",
        Reply::NoContract(_) => "no contract",
        Reply::Ended => "ended",
        Reply::Late(_) => "late",
        Reply::Unmatched => "unmatched",
        Reply::EndedNow => "ended now",
        Reply::AlreadyEnded => "already ended",
        Reply::NotPerformed => "not performed",
        Reply::Shown { .. } => "shown",
        Reply::Answered(_) => "answered",
        Reply::Folio(_) => "portfolio",
        Reply::Watching(_) => "watching",
        Reply::NoWatch(_) => "no watch",
    }
}
