//! Replies without the values of a scan.

ghost use Rattle.std.specs.Prelude.{◌≡◌};
ghost use Rattle.short_reply.specs.ShortReplies.{full_reply};
ghost use Rattle.c_forms.specs.Replies.{blank, reply_form};

use crate::causes::cause_form;
use crate::replies::{ReplyForm, refusal_number};
use short_reply::ShortReply;

/// Writes the form of a reply without the values of a scan over a form that is cleared, so that only the fields of the reply are
/// written: a form takes 184 bytes.
#[inline(always)]
pub fn put_short_form(form: &mut ReplyForm, reply: &ShortReply)
    requires { form.old ≡ blank form.old.kind }
    ensures { form.new ≡ reply_form (full_reply reply.now) }
{
    match reply {
        ShortReply::Begun(txn) => {
            form.kind = 1;
            form.txn = txn.0;
        }
        ShortReply::Value(value) => {
            form.kind = 2;
            form.values.put_first(*value);
        }
        ShortReply::Done => form.kind = 4,
        ShortReply::Prepared => form.kind = 5,
        ShortReply::Committed => form.kind = 6,
        ShortReply::Again { who, node } => {
            form.kind = 7;
            form.txn = who.0;
            form.node = node.0;
        }
        ShortReply::Aborted(cause) => {
            form.kind = 8;
            form.cause = cause_form(cause);
        }
        ShortReply::Refused(why) => {
            form.kind = 9;
            form.refusal = refusal_number(*why);
        }
    }
}
