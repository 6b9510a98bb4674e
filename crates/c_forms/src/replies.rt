//! Replies.

ghost use Rattle.std.specs.Prelude.{◌≡◌};
ghost use Rattle.c_forms.specs.Replies.{blank, reply_form as form, reply_in as read, refusal_number, refusal_in as read_refusal};

use crate::causes::{CauseForm, cause_form, cause_in};
use crate::values::ValueList;
use teb_rules::names::{Node, Refusal, Reply, Txn};

/// A reply as C has it. `kind` is 1 to 9 in the order of `Reply`'s variants, and `refusal` is 1 to 11 in the order of
/// `Refusal`'s. A field that the variant does not have is 0.
#[repr(C)]
#[derive(Clone, Copy)]
pub struct ReplyForm {
    pub kind: u8,
    pub refusal: u8,
    pub node: u8,
    pub txn: u32,
    pub cause: CauseForm,
    pub values: ValueList,
}

impl ReplyForm {
    /// Writes zeros into all fields but `kind`, which `put_short_form` writes.
    #[inline(always)]
    pub fn clear(&mut self)
        ensures { self.new ≡ blank self.old.kind }
    {
        self.refusal = 0;
        self.node = 0;
        self.txn = 0;
        self.cause = CauseForm::none();
        self.values.clear();
    }
}

/// Returns the form of a reply.
pub fn reply_form(reply: &Reply) -> ReplyForm
    ensures { result ≡ form reply.now }
{
    match reply {
        Reply::Begun(txn) => ReplyForm {
            txn: txn.0,
            ..blank(1)
        },
        Reply::Value(value) => ReplyForm {
            values: ValueList::of(*value),
            ..blank(2)
        },
        Reply::Values(values) => ReplyForm {
            values: ValueList::of_scan(values),
            ..blank(3)
        },
        Reply::Done => blank(4),
        Reply::Prepared => blank(5),
        Reply::Committed => blank(6),
        Reply::Again { who, node } => ReplyForm {
            txn: who.0,
            node: node.0,
            ..blank(7)
        },
        Reply::Aborted(cause) => ReplyForm {
            cause: cause_form(cause),
            ..blank(8)
        },
        Reply::Refused(why) => ReplyForm {
            refusal: refusal_number(*why),
            ..blank(9)
        },
    }
}

/// Returns the form of a kind of reply, with zeros in all other fields.
#[inline(always)]
pub fn blank(kind: u8) -> ReplyForm
    ensures { result ≡ blank kind }
{
    ReplyForm {
        kind,
        refusal: 0,
        node: 0,
        txn: 0,
        cause: CauseForm::none(),
        values: ValueList::new(),
    }
}

/// Returns the reply that a form stands for, or `None` if there is none. Only the fields of its kind are read.
pub fn reply_in(form: &ReplyForm) -> Option<Reply>
    ensures { result ≡ read form.now }
{
    match form.kind {
        1 => Some(Reply::Begun(Txn(form.txn))),
        2 => match form.values.first() {
            Some(value) => Some(Reply::Value(value)),
            None => None,
        },
        3 => Some(Reply::Values(form.values.scan())),
        4 => Some(Reply::Done),
        5 => Some(Reply::Prepared),
        6 => Some(Reply::Committed),
        7 => Some(Reply::Again {
            who: Txn(form.txn),
            node: Node(form.node),
        }),
        8 => match cause_in(&form.cause) {
            Some(cause) => Some(Reply::Aborted(cause)),
            None => None,
        },
        9 => match refusal_in(form.refusal) {
            Some(refusal) => Some(Reply::Refused(refusal)),
            None => None,
        },
        _ => None,
    }
}

/// Returns the number of a refusal.
pub fn refusal_number(why: Refusal) -> u8
    ensures { result ≡ refusal_number why }
{
    match why {
        Refusal::BadSession => 1,
        Refusal::InTxn => 2,
        Refusal::UnknownType => 3,
        Refusal::Full => 4,
        Refusal::NoTxn => 5,
        Refusal::UnknownTable => 6,
        Refusal::Prepared => 7,
        Refusal::NotInProfile => 8,
        Refusal::Range => 9,
        Refusal::NotRead => 10,
        Refusal::Overflow => 11,
    }
}

fn refusal_in(number: u8) -> Option<Refusal>
    ensures { result ≡ read_refusal number }
{
    match number {
        1 => Some(Refusal::BadSession),
        2 => Some(Refusal::InTxn),
        3 => Some(Refusal::UnknownType),
        4 => Some(Refusal::Full),
        5 => Some(Refusal::NoTxn),
        6 => Some(Refusal::UnknownTable),
        7 => Some(Refusal::Prepared),
        8 => Some(Refusal::NotInProfile),
        9 => Some(Refusal::Range),
        10 => Some(Refusal::NotRead),
        11 => Some(Refusal::Overflow),
        _ => None,
    }
}
